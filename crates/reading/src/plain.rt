// The plain numbers behind readings and keys, in no range but their types', and the refusals.

ghost use Rattle.std.specs.Prelude.{◌≡◌, ◌↔◌, IsTrue, nat_eq};
ghost use Rattle.std.specs.Ordering.{on};
ghost use Rattle.std.specs.Cmp.Rules.{comparing};
ghost use Rattle.std.proofs.Common.{rules};
ghost use Rattle.reading.specs.Refusals.{numbered};

// The greatest of each number that a reading may have; a value lies from -VALUE_MAX to VALUE_MAX.
pub const STAMP_MAX: u64 = 281_474_976_710_655;

pub const SENSOR_MAX: u64 = 15;

pub const NUMBER_MAX: u64 = 4_294_967_295;

pub const VALUE_MAX: u64 = 1_000_000;

pub const SPREAD_MAX: u64 = 10_000;

// The five numbers of a reading, as a row of memory holds them: flat, with the key's among them.
#[derive(Clone, Copy, PartialEq, Eq, Default, Debug)]
pub struct Entry {
    pub stamp: u64,
    pub sensor: u8,
    pub number: u32,
    pub value: i32,
    pub spread: u16,
}

// The three numbers of a key, compared in this order.
#[derive(Clone, Copy, PartialEq, Eq, PartialOrd, Ord, Default, Debug)]
pub struct EntryKey {
    pub stamp: u64,
    pub sensor: u8,
    pub number: u32,
}

// Why a call was refused. Each case has a fixed number, which is all that a panel shows.
#[derive(Clone, Copy, Eq, Debug)]
pub enum Refusal {
    Stamp = 1,
    Sensor = 2,
    Number = 3,
    Value = 4,
    Spread = 5,
    Setting = 6,
    Row = 7,
    CutNumber = 8,
    LongNumber = 9,
    LargeNumber = 10,
    LongRecord = 11,
    Tag = 12,
    Record = 13,
    Space = 15,
    BelowFloor = 16,
    AboveFloor = 17,
    KeyLogged = 18,
    LogFull = 19,
    KeyNotLogged = 20,
    SettleBelowFloor = 21,
}

// By hand, for the clause `same`: what a derived `==` answers is its code, and no clause says that equal refusals are one.
impl PartialEq for Refusal {
    ghost eq = { on numbered nat_eq };

    ghost laws = { Prim.search (comparing, rules) };

    fn eq(&self, other: &Refusal) -> bool
        ensures value { result ≡ on numbered nat_eq self.now other.now }
        ensures same { IsTrue result ↔ (self.now ≡ other.now) }
    {
        self.number() == other.number()
    }
}
