// Numbers at their edges, with the bytes that an assembler writes for them, and each refusal.
use crate::examples::worked_examples;
use crate::guard::Guard;
use crate::leb128::{Number, decode, encode, width};
use crate::sign::{fold, unfold};
use reading::plain::Refusal;
use std::process::Abort;
use std::test::Fail;

// A number is written as these bytes, behind one that stays, and read back from them.
fn both_ways(rt: &impl Abort, value: u64, bytes: &[u8]) -> Result<(), Fail> {
    let mut space = [7u8; 10];
    let end = encode(value, &mut space, 1)?;
    assert_eq!(rt; end, 1 + bytes.len());
    assert_eq!(rt; width(value), bytes.len());
    assert!(rt; end <= 10);
    assert!(rt; &space[1..end] == bytes);
    assert!(rt; space[0] == 7 && space[8] == 7 && space[9] == 7);
    assert_eq!(rt;
        decode(&space[1..]),
        Ok(Number {
            value,
            width: bytes.len(),
        })
    );
    Ok(())
}

#[test]
fn edges(rt: HostRuntime) -> Result<(), Fail> {
    both_ways(&rt, 0, &[0x00])?;
    both_ways(&rt, 127, &[0x7f])?;
    both_ways(&rt, 128, &[0x80, 0x01])?;
    both_ways(&rt, 300, &[0xac, 0x02])?;
    both_ways(&rt, 16_383, &[0xff, 0x7f])?;
    both_ways(&rt, 16_384, &[0x80, 0x80, 0x01])?;
    both_ways(&rt, 1_999_999, &[0xff, 0x88, 0x7a])?;
    both_ways(
        &rt,
        281_474_976_710_655,
        &[0xff, 0xff, 0xff, 0xff, 0xff, 0xff, 0x3f],
    )
}

#[test]
fn unread(rt: HostRuntime) {
    assert_eq!(rt; decode(&[]), Err(Refusal::CutNumber));
    assert_eq!(rt; decode(&[0x80, 0x80]), Err(Refusal::CutNumber));
    assert_eq!(rt; decode(&[0x80, 0x00]), Err(Refusal::LongNumber));
    assert_eq!(rt;
        decode(&[0x80, 0x80, 0x80, 0x80, 0x80, 0x80, 0x00]),
        Err(Refusal::LongNumber)
    );
    assert_eq!(rt;
        decode(&[0x80, 0x80, 0x80, 0x80, 0x80, 0x80, 0x40]),
        Err(Refusal::LargeNumber)
    );
    assert_eq!(rt;
        decode(&[0x80, 0x80, 0x80, 0x80, 0x80, 0x80, 0x80]),
        Err(Refusal::LargeNumber)
    );
}

#[test]
fn unwritten(rt: HostRuntime) {
    let mut space = [7u8; 3];
    assert_eq!(rt;
        encode(281_474_976_710_656, &mut space, 0),
        Err(Refusal::LargeNumber)
    );
    assert_eq!(rt; encode(300, &mut space, 2), Err(Refusal::Space));
    assert_eq!(rt; encode(0, &mut space, 3), Err(Refusal::Space));
    assert_eq!(rt; encode(0, &mut space, usize::MAX), Err(Refusal::Space));
    assert!(rt; space[0] == 7 && space[1] == 7 && space[2] == 7);
}

#[test]
fn signs(rt: HostRuntime) {
    for (value, number) in [
        (0, 0),
        (-1, 1),
        (1, 2),
        (-1_000_000, 1_999_999),
        (i64::MAX, u64::MAX - 1),
        (i64::MIN, u64::MAX),
    ] {
        assert_eq!(rt; fold(value), number);
        assert_eq!(rt; unfold(number), value);
    }
}

fn moved(back: Option<usize>) -> usize {
    let mut place = 4;
    {
        let guard = Guard {
            place: &mut place,
            back,
        };
        *guard.place = 9;
    }
    place
}

#[test]
fn guarded(rt: HostRuntime) {
    assert_eq!(rt; moved(Some(4)), 4);
    assert_eq!(rt; moved(None), 9);
}

#[test]
fn worked(rt: HostRuntime) -> Result<(), Fail> {
    let (bytes, padded, lowest) = worked_examples();
    assert_eq!(rt; decode(&[0x80, 0x00]), padded);
    assert_eq!(rt; fold(-1_000_000), lowest);
    both_ways(&rt, 300, &bytes)
}
