// A tracker follows a position and its speed, and corrects both by a part of what each reading misses them.
#![tactic(auto)]

pub mod examples;
mod filtering;
pub mod gains;
pub mod plain;
mod rows;
mod step;
#[cfg(test)]
mod tests;
mod whole;

ghost use Rattle.tracker.specs.Tracking.{Possible};

use gains::Gains;
use plain::TrackerState;

#[derive(Drop)]
pub struct Tracker {
    gains: Gains,
    state: TrackerState,
    ghost possible: { Possible state },
}
