// An observer keeps bounds for a level that moves no faster than its rate.
#![tactic(auto)]

pub mod examples;
mod filtering;
pub mod plain;
pub mod rate;
mod rows;
mod step;
#[cfg(test)]
mod tests;

ghost use Rattle.observer.specs.Observing.{Possible};

use plain::ObserverState;
use rate::Rate;

#[derive(Drop)]
pub struct Observer {
    rate: Rate,
    state: ObserverState,
    ghost possible: { Possible state },
}
