// A histogram's state as a row.
ghost use Rattle.std.specs.Prelude.{◌≡◌};
ghost use Rattle.histogram.specs.Counting.{Possible, row};
ghost use Rattle.histogram.specs.Rows.{near, counts_near};

use crate::plain::{BIN_COUNT, HistogramState};
use filter::Row;
use filter::common::padded;
use filter::row_state::RowState;
use reading::plain::STAMP_MAX;

// The first number of a histogram's row, which no other filter's row begins with.
const KIND: i64 = 2;

// The count that comes nearest to a number of a row.
fn count_near(number: i64) -> u32
    ensures { result ≡ near number }
{
    number.clamp(0, i64::from(u32::MAX)) as u32
}

// The counts that come nearest to those of a row.
fn counts_near(row: &Row) -> [u32; BIN_COUNT]
    ensures { result ≡ counts_near row.now }
{
    let mut counts = [0; BIN_COUNT];
    // By place: `map` of an array takes each element through an Option, at more than twice the cost.
    for k in 0..BIN_COUNT {
        counts[k] = count_near(row[2 + k]);
    }
    counts
}

impl RowState for HistogramState {
    ghost possible = { Possible };

    ghost rowed = { row };

    // The stamp is limited, so that the row of a state that no filter is in is a row too.
    fn row(self) -> Row {
        let mut row = padded(&[KIND, self.last.min(STAMP_MAX) as i64]);
        row[2..2 + BIN_COUNT].copy_from_slice(&self.counts.map(i64::from));
        row
    }

    fn nearest(from: &Row) -> HistogramState {
        HistogramState {
            last: from[1].clamp(0, STAMP_MAX as i64) as u64,
            counts: counts_near(from),
        }
    }
}
