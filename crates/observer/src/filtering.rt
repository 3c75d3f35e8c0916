// The observer as a filter.
ghost use Rattle.std.specs.Prelude.{◌≡◌};
ghost use Rattle.observer.specs.Observing.{observed, forecasted, begun, Possible, row, bounds};
ghost use Rattle.observer.specs.Keeps.{observed_possible};
ghost use Rattle.std.proofs.Common.{rules, arith};

use crate::Observer;
use crate::plain::{Bounds, Interval, LEVEL_MAX, ObserverState};
use crate::rate::Rate;
use filter::row_state::RowState;
use filter::{Filter, Forecasting, Row};
use reading::plain::Refusal;
use reading::{Reading, Stamp};

impl Observer {
    // A new observer, which knows nothing yet.
    pub fn new(rate: Rate) -> Observer
        ensures rate { result.rate ≡ rate }
        ensures state { result.state ≡ begun }
    {
        let end = LEVEL_MAX as i32;
        let level = Interval {
            low: -end,
            high: end,
        };
        Observer {
            rate,
            state: ObserverState {
                last: 0,
                level,
                conflicts: 0,
            },
        }
    }
}

impl Filter for Observer {
    type Settings = Rate;

    type State = ObserverState;

    type Estimate = Bounds;

    ghost settings = { λ f. f.rate };

    ghost state = { λ f. f.state };

    ghost stepped = { observed };

    ghost possible = { Possible };

    ghost rowed = { row };

    ghost shown = { bounds };

    ghost stands = { Prim.search rules };

    ghost keeps = { observed_possible };

    ghost apart = { Prim.grind arith };

    #[tactic(auto, using(crate::specs::Keeps::observed_possible))]
    fn step(&mut self, reading: Reading) {
        self.state = self.after(reading);
    }

    // Handed to the state here and in the other filters: one impl for all would need a type and a trait more.
    fn save(&self, row: &mut Row) {
        *row = self.state.row();
    }

    fn restore(&mut self, row: &Row) -> Result<(), Refusal> {
        self.state = ObserverState::from_row(row)?;
        Ok(())
    }

    fn estimate(&self) -> Bounds {
        let level = self.state.level;
        Bounds {
            low: level.low,
            high: level.high,
            conflicts: self.state.conflicts,
        }
    }
}

impl Forecasting for Observer {
    ghost forecasts = { forecasted };

    fn forecast(&self, stamp: Stamp) -> Option<i32> {
        self.level_at(stamp).middle()
    }
}
