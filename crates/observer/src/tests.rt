// The worked examples run, every edge of the settings and of a row, and where counts and levels stay.
use crate::Observer;
use crate::examples::worked_examples;
use crate::plain::Bounds;
use crate::rate::Rate;
use filter::common::{hand_over, padded};
use filter::{Filter, Forecasting, Row};
use reading::plain::Refusal;
use reading::{Reading, Stamp};
use std::test::Fail;

fn observer(rate: u64) -> Result<Observer, Refusal> {
    Ok(Observer::new(Rate::new(rate)?))
}

// A helper of these tests alone, since one for all filters' tests would be public code.
fn step(o: &mut Observer, stamp: u64, value: i64, spread: u64) -> Result<(), Refusal> {
    o.step(Reading::new(stamp, 0, 0, value, spread)?);
    Ok(())
}

fn three() -> Result<Observer, Refusal> {
    let mut o = observer(2)?;
    step(&mut o, 100, 10, 4)?;
    step(&mut o, 105, 12, 4)?;
    step(&mut o, 110, 20, 4)?;
    Ok(o)
}

#[test]
fn settings(rt: HostRuntime) -> Result<(), Fail> {
    assert!(rt; Rate::new(0).is_ok());
    assert_eq!(rt; Rate::new(1_000)?.per_tick(), 1_000);
    assert_eq!(rt; Rate::new(1_001), Err(Refusal::Setting));
    Ok(())
}

#[test]
fn examples(rt: HostRuntime) -> Result<(), Fail> {
    let mut near = three()?;
    let mut far = three()?;
    let shown = near.estimate();
    step(&mut near, 111, 30, 4)?;
    step(&mut far, 111, 40, 4)?;
    assert_eq!(rt; [shown, near.estimate(), far.estimate()], worked_examples());
    Ok(())
}

#[test]
fn forecasts(rt: HostRuntime) -> Result<(), Fail> {
    let new = observer(2)?;
    assert_eq!(rt; new.forecast(Stamp::new(5)?), None);
    let o = three()?;
    assert_eq!(rt; o.forecast(Stamp::new(100)?), Some(20));
    // 16 - 2 to 24 + 2
    assert_eq!(rt; o.forecast(Stamp::new(111)?), Some(20));
    let mut low = observer(0)?;
    step(&mut low, 0, -3, 1)?;
    step(&mut low, 0, -4, 1)?;
    // -4 to -3: the middle is rounded down
    assert_eq!(rt; low.forecast(Stamp::new(9)?), Some(-4));
    // the level can have gone anywhere
    assert_eq!(rt; o.forecast(Stamp::new(281_474_976_710_655)?), None);
    Ok(())
}

#[test]
fn late_reading_widens_nothing(rt: HostRuntime) -> Result<(), Fail> {
    let mut o = three()?;
    step(&mut o, 90, 18, 1)?;
    assert_eq!(rt;
        o.estimate(),
        Bounds {
            low: 17,
            high: 19,
            conflicts: 0,
        }
    );
    // last is still 110, so the level is not widened again at 110
    step(&mut o, 110, 21, 1)?;
    assert_eq!(rt;
        o.estimate(),
        Bounds {
            low: 20,
            high: 22,
            conflicts: 1,
        }
    );
    Ok(())
}

fn row(last: i64, low: i64, high: i64, conflicts: i64) -> Row {
    padded(&[1, last, low, high, conflicts])
}

#[test]
fn rows_at_the_edges(rt: HostRuntime) -> Result<(), Fail> {
    let mut o = three()?;
    let last = 281_474_976_710_655;
    assert!(rt; o.restore(&row(last, -2_000_000, 2_000_000, 65_535)).is_ok());
    assert_eq!(rt;
        o.estimate(),
        Bounds {
            low: -2_000_000,
            high: 2_000_000,
            conflicts: 65_535,
        }
    );
    // the count stays at its greatest
    assert!(rt; o.restore(&row(0, 5, 5, 65_535)).is_ok());
    step(&mut o, 0, 100, 0)?;
    let shown = Bounds {
        low: 100,
        high: 100,
        conflicts: 65_535,
    };
    assert_eq!(rt; o.estimate(), shown);
    let other = padded(&[2, 0, 5, 5]);
    let mut behind = row(0, 5, 5, 0);
    behind[23] = 1;
    for bad in [
        row(-1, 5, 5, 0),
        row(last + 1, 5, 5, 0),
        row(0, -2_000_001, 5, 0),
        row(0, 5, 2_000_001, 0),
        row(0, 6, 5, 0),
        row(0, 5, 5, -1),
        row(0, 5, 5, 65_536),
        other,
        behind,
    ] {
        assert_eq!(rt; o.restore(&bad), Err(Refusal::Row));
        assert_eq!(rt; o.estimate(), shown);
    }
    Ok(())
}

#[test]
fn saves_and_restores(rt: HostRuntime) -> Result<(), Fail> {
    let o = three()?;
    let mut saved = [7; 24];
    o.save(&mut saved);
    assert_eq!(rt; saved, row(110, 16, 24, 0));
    let mut other = observer(9)?;
    step(&mut other, 400, -9, 1)?;
    hand_over(&o, &mut other)?;
    assert_eq!(rt;
        other.estimate(),
        Bounds {
            low: 16,
            high: 24,
            conflicts: 0,
        }
    );
    Ok(())
}
