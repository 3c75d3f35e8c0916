// The gate's setting: how far a value may lie from its forecast.
ghost use Rattle.std.specs.Prelude.{◌≡◌, ◌≤◌};
ghost use Rattle.reading.specs.Making.{map_ok};
ghost use Rattle.layers.specs.Ranges.{limit_max};
ghost use Rattle.layers.specs.Setting.{limited_to};

use filter::common::setting;
use reading::plain::Refusal;

pub const LIMIT_MAX: u64 = 2_000_000;

#[derive(Clone, Copy, PartialEq, Eq, Debug)]
pub struct Limit {
    most: u32,
    ghost ranged: { most ≤ limit_max },
}

impl Limit {
    // Tests a limit; a gate is made only of a tested one.
    pub fn new(most: u64) -> Result<Limit, Refusal>
        ensures { map_ok (λ c. c.most) result ≡ limited_to most }
    {
        Ok(Limit {
            most: setting(most, LIMIT_MAX)? as u32,
        })
    }

    pub fn most(self) -> u32
        ensures { result ≡ self.most }
    {
        self.most
    }
}
