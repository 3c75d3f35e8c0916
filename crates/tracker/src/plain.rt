// The plain numbers of a tracker.

// A unit of the position, of the speed or of a gain has this many parts.
pub const SCALE: i32 = 1_024;

// A position x lies from -X_MAX to X_MAX.
pub const X_MAX: u32 = 1_100_000_000;

// A speed u lies from -U_MAX to U_MAX.
pub const U_MAX: u32 = 10_000_000;

// The longest time, in ticks, that a speed is held for.
pub const SPAN_MAX: u64 = 10_000;

// What a tracker shows, and what it follows: x is the position at the last stamp and u the speed per tick, both in parts.
#[derive(Clone, Copy, PartialEq, Eq, Default, Debug)]
pub struct Track {
    pub x: i32,
    pub u: i32,
}

// What a tracker knows: the last stamp, and a track once it has taken a reading.
#[derive(Clone, Copy, PartialEq, Eq, Default, Debug)]
pub struct TrackerState {
    pub last: u64,
    pub track: Option<Track>,
}
