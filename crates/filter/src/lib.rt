// What a filter is: settings, a state, and a step function of settings, state and reading.
#![tactic(auto)]

pub mod common;
pub mod row_state;

ghost use Rattle.std.specs.Prelude.{◌≡◌, ℕ, List, ℤ, Ok, Err, Option};
ghost use Rattle.reading.specs.Ranges.{Ranged};
ghost use Rattle.reading.specs.declared.plain.Entry.{Entry};
ghost use Rattle.filter.specs.Restoring.{Restored};

use reading::plain::Refusal;
use reading::{Reading, Stamp};

// A checkpoint: a state as plain numbers.
pub type Row = [i64; 24];

pub trait Filter {
    type Settings;

    type State;

    type Estimate: Copy;

    ghost settings: { Self → Self.Settings };

    ghost state: { Self → Self.State };

    // the state after one more reading
    ghost stepped: { Self.Settings → Self.State → Entry → Self.State };

    // the states that a filter can be in
    ghost possible: { Self.State → Type 0 };

    ghost rowed: { Self.State → List ℤ };

    ghost shown: { Self.State → Self.Estimate };

    // Takes one more reading; never refuses.
    fn step(&mut self, reading: Reading)
        ensures state { state self.new ≡ stepped (settings self.old) (state self.old) reading.entry }
        ensures settings { settings self.new ≡ settings self.old };

    // Writes the row of the state.
    fn save(&self, row: &mut Row)
        ensures { row.new ≡ rowed (state self.now) };

    // Takes the state of a row, or refuses and stays as it is where no state has that row.
    fn restore(&mut self, row: &Row) -> Result<(), Refusal>
        ensures answer { Restored possible rowed row.now (state self.new) result }
        ensures kept { elim result [ Ok _ ↦ settings self.new ≡ settings self.old | Err _ ↦ self.new ≡ self.old ] };

    fn estimate(&self) -> Self::Estimate
        ensures { result ≡ shown (state self.now) };

    ghost stands: { (f : Self) → possible (state f) };

    ghost keeps: { (c : Self.Settings) (s : Self.State) (e : Entry) → Ranged e → possible s → possible (stepped c s e) };

    ghost apart: { (s t : Self.State) → possible s → possible t → rowed s ≡ rowed t → s ≡ t };
}

// A filter that can also say which value it expects at a stamp.
pub trait Forecasting: Filter {
    ghost forecasts: { Self.Settings → Self.State → ℕ → Option ℤ };

    // None where nothing can be forecast.
    fn forecast(&self, stamp: Stamp) -> Option<i32>
        ensures { result ≡ forecasts (Self.Filter.settings self.now) (Self.Filter.state self.now) stamp.ticks };
}
