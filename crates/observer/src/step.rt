// One step of an observer, and what it expects.
ghost use Rattle.std.specs.Prelude.{◌≡◌, ◌*◌, ◌≤◌, cond, int_le};
ghost use Rattle.reading.specs.Ranges.{stamp_max};
ghost use Rattle.filter.specs.Common.{elapsed};
ghost use Rattle.observer.specs.Observing.{reached, allowed, shared, met, middle, observed};
ghost use Rattle.observer.specs.Ranges.{rate_max};

use crate::Observer;
use crate::plain::{Interval, LEVEL_MAX, ObserverState};
use filter::common::limited;
use reading::{Reading, Stamp};

impl Interval {
    // The levels that a reading allows.
    fn allowed(reading: Reading) -> Interval
        ensures { result ≡ allowed reading.entry }
    {
        let e = reading.entry();
        let spread = i32::from(e.spread);
        Interval {
            low: e.value - spread,
            high: e.value + spread,
        }
    }

    // What two intervals share, or none where they share no number.
    fn shared(self, other: Interval) -> Option<Interval>
        ensures { let both = shared self other in result ≡ cond (int_le both.low both.high) (Some both) None }
    {
        let low = self.low.max(other.low);
        let high = self.high.min(other.high);
        (low <= high).then_some(Interval { low, high })
    }

    // The middle, rounded down, or none where nothing is known.
    #[tactic(auto, using(std::proofs::lemmas::Int::ints), unfolding(crate::specs::Observing::middle))]
    pub(crate) fn middle(self) -> Option<i32>
        ensures { result ≡ middle self }
    {
        let end = LEVEL_MAX as i32;
        if self.low <= -end && self.high >= end {
            return None;
        }
        let ends = i64::from(self.low) + i64::from(self.high);
        Some(ends.div_euclid(2) as i32)
    }
}

impl ObserverState {
    // What is known once a reading allows these levels.
    fn met(self, read: Interval) -> ObserverState
        ensures { result ≡ met self.last self.conflicts self.level read }
    {
        match self.level.shared(read) {
            Some(level) => ObserverState { level, ..self },
            None => ObserverState {
                level: read,
                conflicts: self.conflicts.saturating_add(1),
                ..self
            },
        }
    }
}

impl Observer {
    // How far the level can have moved since the last stamp.
    fn reach(&self, stamp: Stamp) -> u64
        ensures value { result ≡ self.now.rate.per_tick * elapsed self.now.state.last stamp.ticks }
        ensures small { result ≤ rate_max * stamp_max }
    {
        u64::from(self.rate.per_tick()) * stamp.ticks().saturating_sub(self.state.last)
    }

    // Where the level can lie at a stamp.
    pub(crate) fn level_at(&self, stamp: Stamp) -> Interval
        ensures { result ≡ reached self.now.rate self.now.state stamp.ticks }
    {
        let by = self.reach(stamp) as i64;
        let Interval { low, high } = self.state.level;
        Interval {
            low: limited(LEVEL_MAX, i64::from(low) - by) as i32,
            high: limited(LEVEL_MAX, i64::from(high) + by) as i32,
        }
    }

    // The state after one more reading.
    pub(crate) fn after(&self, reading: Reading) -> ObserverState
        ensures { result ≡ observed self.now.rate self.now.state reading.entry }
    {
        let stamp = reading.stamp();
        let reached = ObserverState {
            last: self.state.last.max(stamp.ticks()),
            level: self.level_at(stamp),
            conflicts: self.state.conflicts,
        };
        reached.met(Interval::allowed(reading))
    }
}
