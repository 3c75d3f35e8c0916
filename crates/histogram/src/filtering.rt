// The histogram as a filter; it does not forecast.
ghost use Rattle.std.specs.Prelude.{◌≡◌};
ghost use Rattle.histogram.specs.Counting.{counted, begun, Possible, row};
ghost use Rattle.std.proofs.Common.{arith, rules, sym, ap, ◌∙◌};
ghost use Rattle.std.proofs.lemmas.Int.{ints};
ghost use Rattle.filter.proofs.Rows.{place};
ghost use Rattle.histogram.specs.Rows.{counts_near, read_back, same};

use crate::Histogram;
use crate::bins::Bins;
use crate::plain::{BIN_COUNT, HistogramState};
use filter::row_state::RowState;
use filter::{Filter, Row};
use reading::Reading;
use reading::plain::Refusal;

impl Histogram {
    // A new histogram, which has counted nothing yet.
    pub fn new(bins: Bins) -> Histogram
        ensures bins { result.bins ≡ bins }
        ensures state { result.state ≡ begun }
    {
        // Zeros as literals: a Default of the state would be as long and say less.
        Histogram {
            bins,
            state: HistogramState {
                last: 0,
                counts: [0; BIN_COUNT],
            },
        }
    }
}

impl Filter for Histogram {
    type Settings = Bins;

    type State = HistogramState;

    type Estimate = [u32; BIN_COUNT];

    ghost settings = { λ f. f.bins };

    ghost state = { λ f. f.state };

    ghost stepped = { counted };

    ghost possible = { Possible };

    ghost rowed = { row };

    ghost shown = { λ s. s.counts };

    ghost stands = { Prim.search rules };

    ghost keeps = { Prim.search rules };

    ghost apart = { λ s t p q e. same (omega (arith, ints, place 1 e)) (sym (read_back s p) ∙ ap counts_near e ∙ read_back t q) };

    fn step(&mut self, reading: Reading) {
        self.state = self.after(reading);
    }

    // Handed to the state here and in the other filters: one impl for all would need a type and a trait more.
    fn save(&self, row: &mut Row) {
        *row = self.state.row();
    }

    fn restore(&mut self, row: &Row) -> Result<(), Refusal> {
        self.state = HistogramState::from_row(row)?;
        Ok(())
    }

    fn estimate(&self) -> [u32; BIN_COUNT] {
        self.state.counts
    }
}
