// An observer's state as a row.
ghost use Rattle.observer.specs.Observing.{Possible, row};

use crate::plain::{Interval, LEVEL_MAX, ObserverState};
use filter::Row;
use filter::common::{limited, padded};
use filter::row_state::RowState;
use reading::plain::STAMP_MAX;

// The first number of an observer's row, which no other filter's row begins with.
const KIND: i64 = 1;

impl RowState for ObserverState {
    ghost possible = { Possible };

    ghost rowed = { row };

    // The stamp is limited, so that the row of a state that no filter is in is a row too.
    fn row(self) -> Row {
        padded(&[
            KIND,
            self.last.min(STAMP_MAX) as i64,
            i64::from(self.level.low),
            i64::from(self.level.high),
            i64::from(self.conflicts),
        ])
    }

    fn nearest(from: &Row) -> ObserverState {
        let [_, last, low, high, conflicts, ..] = *from;
        let low = limited(LEVEL_MAX, low) as i32;
        let high = limited(LEVEL_MAX, high) as i32;
        ObserverState {
            last: last.clamp(0, STAMP_MAX as i64) as u64,
            level: Interval {
                low,
                high: high.max(low),
            },
            conflicts: conflicts.clamp(0, i64::from(u16::MAX)) as u16,
        }
    }
}
