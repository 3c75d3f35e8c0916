// Stacks of layers over filters: an example worked by hand, and tests of several stacks.
#![tactic(auto)]

#[cfg(test)]
mod engines;
#[cfg(test)]
mod tests;

ghost use Rattle.std.specs.Prelude.{◌≡◌};
ghost use Rattle.stacks.specs.Examples.{worked};

// A gate of 5 over a tracker of gains 512 and 128 that took 10 at 100 and 12 at 105.
#[derive(Clone, Copy, PartialEq, Eq, Debug)]
pub struct GateExample {
    // what is forecast at 110
    pub forecast: Option<i32>,
    // whether 16 and 17 pass there
    pub passes_16: bool,
    pub passes_17: bool,
}

#[tactic(auto, unfolding(filter::specs::Common::limit, tracker::specs::Tracking::part))]
pub fn worked_example() -> GateExample
    ensures { (result.forecast, result.passes_16, result.passes_17) ≡ worked }
{
    GateExample {
        forecast: Some(11),
        passes_16: true,
        passes_17: false,
    }
}
