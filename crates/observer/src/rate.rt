// The observer's setting: how far the level can move in one tick.
ghost use Rattle.std.specs.Prelude.{◌≡◌, ◌≤◌};
ghost use Rattle.reading.specs.Making.{map_ok};
ghost use Rattle.observer.specs.Ranges.{rate_max};
ghost use Rattle.observer.specs.Making.{rated};

use filter::common::setting;
use reading::plain::Refusal;

pub const RATE_MAX: u64 = 1_000;

#[derive(Clone, Copy, PartialEq, Eq, Debug)]
pub struct Rate {
    per_tick: u16,
    ghost ranged: { per_tick ≤ rate_max },
}

impl Rate {
    // Tests a rate; an observer is made only of a tested one.
    pub fn new(per_tick: u64) -> Result<Rate, Refusal>
        ensures { map_ok (λ c. c.per_tick) result ≡ rated per_tick }
    {
        Ok(Rate {
            per_tick: setting(per_tick, RATE_MAX)? as u16,
        })
    }

    pub fn per_tick(self) -> u16
        ensures value { result ≡ self.per_tick }
        ensures ranged { result ≤ rate_max }
    {
        self.per_tick
    }
}
