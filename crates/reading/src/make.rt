// Stamps, keys and readings made from numbers of any size, and taken apart again.
ghost use Rattle.std.specs.Prelude.{◌≡◌, ◌≤◌};
ghost use Rattle.reading.specs.Ranges.{Ranged, RangedKey, key_of, stamp_max};
ghost use Rattle.reading.specs.Making.{stamped, keyed, entered, map_ok};

use crate::plain::{
    Entry, EntryKey, NUMBER_MAX, Refusal, SENSOR_MAX, SPREAD_MAX, STAMP_MAX, VALUE_MAX,
};
use crate::{Key, Reading, Stamp};

impl Stamp {
    pub fn new(ticks: u64) -> Result<Stamp, Refusal>
        ensures { map_ok (λ s. s.ticks) result ≡ stamped ticks }
    {
        if ticks > STAMP_MAX {
            return Err(Refusal::Stamp);
        }
        Ok(Stamp { ticks })
    }

    pub fn ticks(self) -> u64
        ensures value { result ≡ self.ticks }
        ensures ranged { result ≤ stamp_max }
    {
        self.ticks
    }
}

impl Key {
    pub fn new(stamp: u64, sensor: u64, number: u64) -> Result<Key, Refusal>
        ensures { map_ok (λ k. k.key) result ≡ keyed stamp sensor number }
    {
        let stamp = Stamp::new(stamp)?.ticks();
        if sensor > SENSOR_MAX {
            return Err(Refusal::Sensor);
        }
        if number > NUMBER_MAX {
            return Err(Refusal::Number);
        }
        let key = EntryKey {
            stamp,
            sensor: sensor as u8,
            number: number as u32,
        };
        Ok(Key { key })
    }

    // The key's plain numbers.
    pub fn plain(self) -> EntryKey
        ensures value { result ≡ self.key }
        ensures ranged { RangedKey result }
    {
        self.key
    }
}

impl Reading {
    pub fn new(
        stamp: u64,
        sensor: u64,
        number: u64,
        value: i64,
        spread: u64,
    ) -> Result<Reading, Refusal>
        ensures { map_ok (λ x. x.entry) result ≡ entered stamp sensor number value spread }
    {
        let key = Key::new(stamp, sensor, number)?.plain();
        if value.unsigned_abs() > VALUE_MAX {
            return Err(Refusal::Value);
        }
        if spread > SPREAD_MAX {
            return Err(Refusal::Spread);
        }
        let entry = Entry {
            stamp: key.stamp,
            sensor: key.sensor,
            number: key.number,
            value: value as i32,
            spread: spread as u16,
        };
        Ok(Reading { entry })
    }

    // A reading of the numbers that a row of memory holds.
    pub fn of(entry: Entry) -> Result<Reading, Refusal>
        ensures { map_ok (λ x. x.entry) result ≡ entered entry.stamp entry.sensor entry.number entry.value entry.spread }
    {
        Reading::new(
            entry.stamp,
            u64::from(entry.sensor),
            u64::from(entry.number),
            i64::from(entry.value),
            u64::from(entry.spread),
        )
    }

    // The reading's plain numbers.
    pub fn entry(self) -> Entry
        ensures value { result ≡ self.entry }
        ensures ranged { Ranged result }
    {
        self.entry
    }

    pub fn key(self) -> Key
        ensures { result.key ≡ key_of self.entry }
    {
        Key {
            key: self.entry.key(),
        }
    }

    pub fn stamp(self) -> Stamp
        ensures { result.ticks ≡ self.entry.stamp }
    {
        Stamp {
            ticks: self.entry.stamp,
        }
    }
}

// A key of the numbers that a row of memory holds.
impl TryFrom<EntryKey> for Key {
    type Error = Refusal;

    ghost try_from_gives = { λ k r. map_ok (λ x. x.key) r ≡ keyed k.stamp k.sensor k.number };

    fn try_from(key: EntryKey) -> Result<Key, Refusal> {
        Key::new(key.stamp, u64::from(key.sensor), u64::from(key.number))
    }
}

// A reading of the numbers that a row of memory holds.
impl TryFrom<Entry> for Reading {
    type Error = Refusal;

    ghost try_from_gives = { λ e r. map_ok (λ x. x.entry) r ≡ entered e.stamp e.sensor e.number e.value e.spread };

    fn try_from(entry: Entry) -> Result<Reading, Refusal> {
        Reading::of(entry)
    }
}
