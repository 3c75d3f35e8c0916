// States that stand in rows, and the state of a row.
ghost use Rattle.std.specs.Prelude.{◌≡◌, List, ℤ};
ghost use Rattle.filter.specs.Restoring.{Found};

use crate::Row;
use crate::common::same_row;
use reading::plain::Refusal;

// A state of a filter, which a row can hold.
pub trait RowState: Copy {
    // the states that a filter can be in
    ghost possible: { Self → Type 0 };

    ghost rowed: { Self → List ℤ };

    // The row of a possible state.
    fn row(self) -> Row
        ensures { possible self → result ≡ rowed self };

    // The possible state that comes nearest to a row; where some state has that row, it is that state.
    fn nearest(from: &Row) -> Self
        ensures possible { possible result }
        ensures back { (s : Self) → possible s → rowed s ≡ from.now → result ≡ s };

    // The state of a row, or a refusal where no possible state has that row.
    final fn from_row(from: &Row) -> Result<Self, Refusal>
        ensures { Found possible rowed from.now result }
    {
        let state = Self::nearest(from);
        if same_row(&state.row(), from) {
            Ok(state)
        } else {
            Err(Refusal::Row)
        }
    }
}
