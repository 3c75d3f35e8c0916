// The plain numbers of an observer.

// A level lies from -LEVEL_MAX to LEVEL_MAX.
pub const LEVEL_MAX: u32 = 2_000_000;

// From low to high, ends included.
#[derive(Clone, Copy, PartialEq, Eq, Debug)]
pub struct Interval {
    pub low: i32,
    pub high: i32,
}

// What an observer knows: where the level lay at the last stamp, and how many readings contradicted that.
#[derive(Clone, Copy, PartialEq, Eq, Debug)]
pub struct ObserverState {
    pub last: u64,
    pub level: Interval,
    pub conflicts: u16,
}

// What an observer shows.
#[derive(Clone, Copy, PartialEq, Eq, Debug)]
pub struct Bounds {
    pub low: i32,
    pub high: i32,
    pub conflicts: u16,
}
