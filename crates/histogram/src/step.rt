// One step of a histogram.
ghost use Rattle.std.specs.Prelude.{◌≡◌, ◌<◌};
ghost use Rattle.histogram.specs.Counting.{bin, counted};

use crate::Histogram;
use crate::bins::Bins;
use crate::plain::{BIN_COUNT, HistogramState};
use reading::Reading;

impl Bins {
    // The bin that a reading's value falls into.
    fn bin(self, reading: Reading) -> usize
        ensures value { result ≡ bin self reading.entry.value }
        ensures below { result < 16 }
    {
        let value = reading.entry().value;
        let origin = self.origin();
        if value < origin {
            return 0;
        }
        let above = value.abs_diff(origin);
        (above / self.width()).min(BIN_COUNT as u32 - 1) as usize
    }
}

impl Histogram {
    // The state after one more reading.
    pub(crate) fn after(&self, reading: Reading) -> HistogramState
        ensures { result ≡ counted self.now.bins self.now.state reading.entry }
    {
        let k = self.bins.bin(reading);
        let mut counts = self.state.counts;
        counts[k] = counts[k].saturating_add(1);
        HistogramState {
            last: self.state.last.max(reading.stamp().ticks()),
            counts,
        }
    }
}
