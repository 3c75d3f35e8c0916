// A bias for each of the sixteen sensors.
ghost use Rattle.std.specs.Prelude.{◌≡◌, ℕ, ◌≤◌, length, replicate, pos, slice_index_or, unsigned_abs};
ghost use Rattle.layers.specs.Ranges.{bias_max};
ghost use Rattle.layers.specs.Setting.{set_answer, set_left};

use filter::common::setting;
use reading::plain::{Refusal, SENSOR_MAX};

// A bias lies from -BIAS_MAX to BIAS_MAX.
pub const BIAS_MAX: u64 = 100_000;

#[derive(Clone, Copy, Debug)]
pub struct Biases {
    by_sensor: [i32; 16],
    ghost size: { length by_sensor ≡ 16 },
    ghost ranged: { ((k : ℕ) → unsigned_abs (slice_index_or by_sensor k (pos 0)) ≤ bias_max) },
}

impl Biases {
    // No sensor is off: zeros as a literal, which a Default would only name.
    pub fn new() -> Biases
        ensures { result.by_sensor ≡ replicate 16 (pos 0) }
    {
        Biases { by_sensor: [0; 16] }
    }

    // Sets the bias of one sensor, or refuses and leaves the table as it is.
    pub fn set(&mut self, sensor: u64, bias: i64) -> Result<(), Refusal>
        ensures answer { result ≡ set_answer sensor bias }
        ensures left { self.new.by_sensor ≡ set_left self.old.by_sensor sensor bias }
    {
        if sensor > SENSOR_MAX {
            return Err(Refusal::Sensor);
        }
        setting(bias.unsigned_abs(), BIAS_MAX)?;
        self.by_sensor[sensor as usize] = bias as i32;
        Ok(())
    }

    // The bias of a sensor; 0 where there is no such sensor.
    pub fn of(&self, sensor: u8) -> i32
        ensures value { result ≡ slice_index_or self.now.by_sensor sensor (pos 0) }
        ensures ranged { unsigned_abs result ≤ bias_max }
    {
        let bias = self.by_sensor.get(usize::from(sensor));
        bias.copied().unwrap_or(0)
    }
}
