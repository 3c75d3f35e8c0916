// The plain numbers of a histogram.

pub const BIN_COUNT: usize = 16;

// What a histogram knows: the last stamp, and how many values fell into each bin.
#[derive(Clone, Copy, PartialEq, Eq, Debug)]
pub struct HistogramState {
    pub last: u64,
    pub counts: [u32; BIN_COUNT],
}
