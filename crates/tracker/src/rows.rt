// A tracker's state as a row.
ghost use Rattle.tracker.specs.Tracking.{Possible, row};

use crate::plain::{Track, TrackerState, U_MAX, X_MAX};
use filter::Row;
use filter::common::{limited, padded};
use filter::row_state::RowState;
use reading::plain::STAMP_MAX;

// The first number of a tracker's row, which no other filter's row begins with.
const KIND: i64 = 3;

impl RowState for TrackerState {
    ghost possible = { Possible };

    ghost rowed = { row };

    // The stamp is limited, so that the row of a state that no filter is in is a row too.
    fn row(self) -> Row {
        let Track { x, u } = self.track.unwrap_or_default();
        padded(&[
            KIND,
            self.last.min(STAMP_MAX) as i64,
            i64::from(self.track.is_some()),
            i64::from(x),
            i64::from(u),
        ])
    }

    fn nearest(from: &Row) -> TrackerState {
        let [_, last, primed, x, u, ..] = *from;
        if primed != 1 {
            // without a track only the first state is possible
            return TrackerState::default();
        }
        TrackerState {
            last: last.clamp(0, STAMP_MAX as i64) as u64,
            track: Some(Track {
                x: limited(X_MAX, x) as i32,
                u: limited(U_MAX, u) as i32,
            }),
        }
    }
}
