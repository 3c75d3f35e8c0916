// Readings and keys, whose ranges their types keep, and the refusals of the whole library.
#![tactic(auto)]

mod make;
mod order;
pub mod plain;
pub mod refuse;
#[cfg(test)]
mod tests;

ghost use Rattle.std.specs.Prelude.{◌≤◌};
ghost use Rattle.reading.specs.Ranges.{Ranged, RangedKey, stamp_max};

use plain::{Entry, EntryKey};

// A moment in ticks: one tick is one millisecond.
#[derive(Clone, Copy, PartialEq, Eq, Debug)]
pub struct Stamp {
    ticks: u64,
    ghost ranged: { ticks ≤ stamp_max },
}

// What orders readings: stamp, sensor and number, compared in that order.
#[derive(Clone, Copy, PartialEq, Eq, Debug)]
pub struct Key {
    key: EntryKey,
    ghost ranged: { RangedKey key },
}

// A measurement: a value with its largest error, under a key.
#[derive(Clone, Copy, PartialEq, Eq, Debug)]
pub struct Reading {
    entry: Entry,
    ghost ranged: { Ranged entry },
}
