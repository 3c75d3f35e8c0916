// The tracker's settings: which part of a miss corrects the position, and which the speed.
ghost use Rattle.std.specs.Prelude.{◌≡◌, ◌≤◌};
ghost use Rattle.reading.specs.Making.{map_ok};
ghost use Rattle.tracker.specs.Ranges.{scale};
ghost use Rattle.tracker.specs.Making.{gained};

use filter::common::setting;
use reading::plain::Refusal;

pub const GAIN_MAX: u64 = 1_024;

#[derive(Clone, Copy, PartialEq, Eq, Debug)]
pub struct Gains {
    a: u16,
    b: u16,
    ghost ranged: { (a ≤ scale) × (b ≤ scale) },
}

impl Gains {
    // Tests gains for the position and for the speed; a tracker is made only of tested ones.
    pub fn new(a: u64, b: u64) -> Result<Gains, Refusal>
        ensures { map_ok (λ c. (c.a, c.b)) result ≡ gained a b }
    {
        Ok(Gains {
            a: setting(a, GAIN_MAX)? as u16,
            b: setting(b, GAIN_MAX)? as u16,
        })
    }

    pub fn a(self) -> u16
        ensures value { result ≡ self.a }
        ensures ranged { result ≤ scale }
    {
        self.a
    }

    pub fn b(self) -> u16
        ensures value { result ≡ self.b }
        ensures ranged { result ≤ scale }
    {
        self.b
    }
}
