// The order of keys.
ghost use Rattle.std.specs.Prelude.{◌≡◌};
ghost use Rattle.reading.specs.Order.{precedes, same, KeyOrder};
ghost use Rattle.reading.specs.Ranges.{key_of};

use crate::plain::{Entry, EntryKey};

impl Entry {
    pub fn key(&self) -> EntryKey
        ensures { result ≡ key_of self.now }
    {
        EntryKey {
            stamp: self.stamp,
            sensor: self.sensor,
            number: self.number,
        }
    }
}

impl EntryKey {
    // Whether this key comes before another: `<`, by a name and with the law of the order.
    pub fn precedes(&self, other: &EntryKey) -> bool
        ensures value { result ≡ precedes self.now other.now }
        ensures law { KeyOrder }
    {
        *self < *other
    }

    // Whether this key is the other: `==`, beside the name for `<`.
    #[tactic(auto, unfolding(crate::specs::Order::same))]
    pub fn same_as(&self, other: &EntryKey) -> bool
        ensures { result ≡ same self.now other.now }
    {
        *self == *other
    }
}
