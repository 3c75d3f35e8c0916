// The late-measurement engine: a filter, the log of the readings that may still change, and checkpoints to step on from.
#![tactic(auto)]

pub mod calls;
pub mod examples;
pub mod questions;
mod replaying;
mod standing;

use filter::{Filter, Row};
use reading_log::Log;

// How many checkpoints there are: the first before all readings, and one more after each SPACING of them.
const CHECKPOINTS: usize = 8;

const SPACING: usize = 8;

#[derive(Drop)]
pub struct Engine<F: Filter> {
    filter: F,
    log: Log,
    checkpoints: [Row; CHECKPOINTS],
    floor: u64,
}
