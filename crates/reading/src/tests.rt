// Both edges of every range, the order of the checks, and the order of keys.
use crate::plain::{Entry, EntryKey, Refusal};
use crate::{Key, Reading, Stamp};
use std::test::Fail;

const LAST: u64 = 281_474_976_710_655;

// The number of the refusal, or none where a reading was made.
fn refused(stamp: u64, sensor: u64, number: u64, value: i64, spread: u64) -> Option<u8> {
    Reading::new(stamp, sensor, number, value, spread)
        .err()
        .map(Refusal::number)
}

#[test]
fn ranges(rt: HostRuntime) {
    assert_eq!(rt; refused(0, 0, 0, 0, 0), None);
    assert_eq!(rt; refused(LAST, 15, 4_294_967_295, 1_000_000, 10_000), None);
    assert_eq!(rt; refused(LAST, 15, 4_294_967_295, -1_000_000, 10_000), None);
    assert_eq!(rt; refused(LAST + 1, 0, 0, 0, 0), Some(1));
    assert_eq!(rt; refused(0, 16, 0, 0, 0), Some(2));
    assert_eq!(rt; refused(0, 0, 4_294_967_296, 0, 0), Some(3));
    assert_eq!(rt; refused(0, 0, 0, 1_000_001, 0), Some(4));
    assert_eq!(rt; refused(0, 0, 0, -1_000_001, 0), Some(4));
    assert_eq!(rt; refused(0, 0, 0, i64::MIN, 0), Some(4));
    assert_eq!(rt; refused(0, 0, 0, 0, 10_001), Some(5));
}

#[test]
fn first_check_decides(rt: HostRuntime) {
    assert_eq!(rt;
        refused(LAST + 1, 16, 4_294_967_296, 1_000_001, 10_001),
        Some(1)
    );
    assert_eq!(rt;
        refused(LAST, 16, 4_294_967_296, 1_000_001, 10_001),
        Some(2)
    );
    assert_eq!(rt;
        refused(LAST, 15, 4_294_967_296, 1_000_001, 10_001),
        Some(3)
    );
    assert_eq!(rt;
        refused(LAST, 15, 4_294_967_295, 1_000_001, 10_001),
        Some(4)
    );
}

#[test]
fn stamps_and_keys(rt: HostRuntime) {
    assert!(rt; Stamp::new(LAST).is_ok());
    assert!(rt; Stamp::new(LAST + 1) == Err(Refusal::Stamp));
    assert!(rt; Key::new(LAST, 15, 4_294_967_295).is_ok());
    assert!(rt; Key::new(LAST + 1, 16, 0) == Err(Refusal::Stamp));
    assert!(rt; Key::new(LAST, 16, 4_294_967_296) == Err(Refusal::Sensor));
    assert!(rt; Key::new(0, 0, 4_294_967_296) == Err(Refusal::Number));
}

#[test]
fn rows_of_memory(rt: HostRuntime) -> Result<(), Fail> {
    let row = Entry {
        stamp: 7,
        sensor: 3,
        number: 9,
        value: -5,
        spread: 2,
    };
    let reading = Reading::try_from(row)?;
    assert_eq!(rt; reading.entry(), row);
    assert_eq!(rt; reading.stamp().ticks(), 7);
    assert_eq!(rt;
        reading.key().plain(),
        EntryKey {
            stamp: 7,
            sensor: 3,
            number: 9,
        }
    );
    assert_eq!(rt; Key::try_from(row.key()), Ok(reading.key()));
    assert!(rt;
        Key::try_from(EntryKey {
            sensor: 16,
            ..row.key()
        }) == Err(Refusal::Sensor)
    );
    assert!(rt;
        Reading::try_from(Entry {
            stamp: 7,
            sensor: 16,
            number: 9,
            value: -5,
            spread: 2,
        }) == Err(Refusal::Sensor)
    );
    Ok(())
}

// Each key comes before all later ones.
#[test]
fn key_order(rt: HostRuntime) {
    let rising = [
        EntryKey {
            stamp: 1,
            sensor: 15,
            number: 9,
        },
        EntryKey {
            stamp: 2,
            sensor: 0,
            number: 5,
        },
        EntryKey {
            stamp: 2,
            sensor: 1,
            number: 0,
        },
        EntryKey {
            stamp: 2,
            sensor: 1,
            number: 1,
        },
    ];
    for (i, a) in rising.iter().enumerate() {
        for (j, b) in rising.iter().enumerate() {
            assert_eq!(rt; a.precedes(b), i < j);
            assert_eq!(rt; a.same_as(b), i == j);
        }
    }
}

#[test]
fn sentences(rt: HostRuntime) -> Result<(), Fail> {
    let heap = rt.alloc();
    let first = format!(in heap; "{}", Refusal::Stamp)?;
    assert!(rt; first.as_str() == "refusal 1: the stamp is out of range");
    let last = format!(in heap; "{}", Refusal::SettleBelowFloor)?;
    assert!(rt; last.as_str() == "refusal 21: the floor does not move backwards");
    assert_eq!(rt; Refusal::Space.number(), 15);
    Ok(())
}
