// The tracker as a filter.
ghost use Rattle.std.specs.Prelude.{◌≡◌};
ghost use Rattle.tracker.specs.Tracking.{tracked, forecasted, begun, Possible, row, track};
ghost use Rattle.tracker.specs.Keeps.{tracked_possible};
ghost use Rattle.std.proofs.Common.{rules, arith};

use crate::Tracker;
use crate::gains::Gains;
use crate::plain::{Track, TrackerState};
use filter::row_state::RowState;
use filter::{Filter, Forecasting, Row};
use reading::plain::Refusal;
use reading::{Reading, Stamp};

impl Tracker {
    // A new tracker, which has taken no reading yet.
    pub fn new(gains: Gains) -> Tracker
        ensures gains { result.gains ≡ gains }
        ensures state { result.state ≡ begun }
    {
        Tracker {
            gains,
            state: TrackerState::default(),
        }
    }
}

impl Filter for Tracker {
    type Settings = Gains;

    type State = TrackerState;

    type Estimate = Track;

    ghost settings = { λ f. f.gains };

    ghost state = { λ f. f.state };

    ghost stepped = { tracked };

    ghost possible = { Possible };

    ghost rowed = { row };

    ghost shown = { track };

    ghost stands = { Prim.search rules };

    ghost keeps = { tracked_possible };

    ghost apart = { Prim.grind arith };

    #[tactic(auto, using(crate::specs::Keeps::tracked_possible))]
    fn step(&mut self, reading: Reading) {
        self.state = self.after(reading);
    }

    // Handed to the state here and in the other filters: one impl for all would need a type and a trait more.
    fn save(&self, row: &mut Row) {
        *row = self.state.row();
    }

    fn restore(&mut self, row: &Row) -> Result<(), Refusal> {
        self.state = TrackerState::from_row(row)?;
        Ok(())
    }

    fn estimate(&self) -> Track {
        self.state.track.unwrap_or_default()
    }
}

impl Forecasting for Tracker {
    ghost forecasts = { λ c s stamp. forecasted s stamp };

    fn forecast(&self, stamp: Stamp) -> Option<i32> {
        self.expected(stamp)
    }
}
