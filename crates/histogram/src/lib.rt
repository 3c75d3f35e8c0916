// A histogram counts values in sixteen bins of one width.
#![tactic(auto)]

pub mod bins;
pub mod examples;
mod filtering;
pub mod plain;
mod rows;
mod step;
#[cfg(test)]
mod tests;

ghost use Rattle.histogram.specs.Counting.{Possible};

use bins::Bins;
use plain::HistogramState;

#[derive(Drop)]
pub struct Histogram {
    bins: Bins,
    state: HistogramState,
    ghost possible: { Possible state },
}
