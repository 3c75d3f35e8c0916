// The histogram's settings: where its bins begin, and how wide each is.
ghost use Rattle.std.specs.Prelude.{◌≡◌, ◌≤◌, unsigned_abs};
ghost use Rattle.reading.specs.Making.{map_ok};
ghost use Rattle.histogram.specs.Ranges.{origin_max, width_max};
ghost use Rattle.histogram.specs.Making.{binned};

use filter::common::setting;
use reading::plain::Refusal;

// An origin lies from -ORIGIN_MAX to ORIGIN_MAX, and a width from 1 to WIDTH_MAX.
pub const ORIGIN_MAX: u64 = 1_000_000;

pub const WIDTH_MAX: u64 = 100_000;

#[derive(Clone, Copy, PartialEq, Eq, Debug)]
pub struct Bins {
    origin: i32,
    width: u32,
    ghost ranged: { (unsigned_abs origin ≤ origin_max) × (1 ≤ width) × (width ≤ width_max) },
}

impl Bins {
    // Tests an origin and a width; a histogram is made only of tested ones.
    pub fn new(origin: i64, width: u64) -> Result<Bins, Refusal>
        ensures { map_ok (λ c. (c.origin, c.width)) result ≡ binned origin width }
    {
        setting(origin.unsigned_abs(), ORIGIN_MAX)?;
        let width = setting(width, WIDTH_MAX)?;
        if width < 1 {
            return Err(Refusal::Setting);
        }
        Ok(Bins {
            origin: origin as i32,
            width: width as u32,
        })
    }

    pub fn origin(self) -> i32
        ensures value { result ≡ self.origin }
        ensures ranged { unsigned_abs result ≤ origin_max }
    {
        self.origin
    }

    pub fn width(self) -> u32
        ensures value { result ≡ self.width }
        ensures some { 1 ≤ result }
        ensures ranged { result ≤ width_max }
    {
        self.width
    }
}
