// Settings and rows at the edges of their ranges, the worked examples, and the limits.
use crate::Tracker;
use crate::examples::worked_examples;
use crate::gains::Gains;
use crate::plain::Track;
use filter::common::{hand_over, padded};
use filter::{Filter, Forecasting, Row};
use reading::plain::Refusal;
use reading::{Reading, Stamp};
use std::test::Fail;

// Takes a reading of each value at its stamp. The histogram's tests have the same helper, since one for both would be public code.
fn take(tracker: &mut Tracker, readings: &[(u64, i64)]) -> Result<(), Refusal> {
    for &(stamp, value) in readings {
        tracker.step(Reading::new(stamp, 0, 0, value, 0)?);
    }
    Ok(())
}

// What a tracker shows after the readings.
fn shown(gains: Gains, readings: &[(u64, i64)]) -> Result<Track, Refusal> {
    let mut tracker = Tracker::new(gains);
    take(&mut tracker, readings)?;
    Ok(tracker.estimate())
}

#[test]
fn settings(rt: HostRuntime) -> Result<(), Fail> {
    let least = Gains::new(0, 0)?;
    let most = Gains::new(1_024, 1_024)?;
    assert_eq!(rt;
        [least.a(), least.b(), most.a(), most.b()],
        [0, 0, 1_024, 1_024]
    );
    assert_eq!(rt;
        [Gains::new(1_025, 0), Gains::new(0, 1_025)],
        [Err(Refusal::Setting); 2]
    );
    Ok(())
}

#[test]
fn examples(rt: HostRuntime) -> Result<(), Fail> {
    let gains = Gains::new(512, 128)?;
    let all = shown(gains, &[(100, 10), (105, 12), (110, 20)])?;
    let without = shown(gains, &[(100, 10), (110, 20)])?;
    let falling = shown(gains, &[(100, 0), (103, -1)])?;
    assert_eq!(rt; [all, without, falling], worked_examples());
    Ok(())
}

#[test]
fn forecasts(rt: HostRuntime) -> Result<(), Fail> {
    let mut tracker = Tracker::new(Gains::new(512, 128)?);
    let stamp = Stamp::new(110)?;
    let none = tracker.forecast(stamp);
    take(&mut tracker, &[(100, 10), (105, 12)])?;
    assert_eq!(rt; [none, tracker.forecast(stamp)], [None, Some(11)]);
    tracker.restore(&padded(&[3, 5, 1, 0, 1_024]))?;
    let before = tracker.forecast(Stamp::new(0)?);
    let within = tracker.forecast(Stamp::new(10_005)?);
    let past = tracker.forecast(Stamp::new(10_006)?);
    assert_eq!(rt;
        [before, within, past],
        [Some(0), Some(10_000), Some(10_000)]
    );
    Ok(())
}

// From -1,000,000 to 1,000,000 in one tick is faster than a tracker follows, and further than it forecasts.
#[test]
fn limits(rt: HostRuntime) -> Result<(), Fail> {
    let mut tracker = Tracker::new(Gains::new(0, 1_024)?);
    take(&mut tracker, &[(0, -1_000_000), (1, 1_000_000)])?;
    assert_eq!(rt;
        tracker.estimate(),
        Track {
            x: -1_024_000_000,
            u: 10_000_000,
        }
    );
    assert_eq!(rt; tracker.forecast(Stamp::new(10_001)?), Some(1_074_218));
    Ok(())
}

// Whether a tracker takes the row, and then has it.
fn belongs(tracker: &mut Tracker, row: &Row) -> bool {
    let mut back = [7; 24];
    let answer = tracker.restore(row);
    tracker.save(&mut back);
    answer.is_ok() && back == *row
}

#[test]
fn rows(rt: HostRuntime) -> Result<(), Fail> {
    let mut tracker = Tracker::new(Gains::new(512, 128)?);
    let high = padded(&[3, 281_474_976_710_655, 1, 1_100_000_000, 10_000_000]);
    let low = padded(&[3, 0, 1, -1_100_000_000, -10_000_000]);
    for row in &[low, padded(&[3]), high] {
        assert!(rt; belongs(&mut tracker, row));
    }
    let out = [
        (0, 2),
        (1, -1),
        (1, 281_474_976_710_656),
        (2, -1),
        (2, 2),
        (3, -1_100_000_001),
        (3, 1_100_000_001),
        (4, -10_000_001),
        (4, 10_000_001),
        (5, 1),
        (23, 1),
    ];
    for &(place, number) in &out {
        let mut row = high;
        // by get_mut: the check does not know that a place of this table is in a row
        if let Some(slot) = row.get_mut(place) {
            *slot = number;
        }
        assert_eq!(rt; tracker.restore(&row), Err(Refusal::Row));
    }
    for row in &[
        padded(&[3, 1]),
        padded(&[3, 0, 0, 1]),
        padded(&[3, 0, 0, 0, 1]),
    ] {
        assert_eq!(rt; tracker.restore(row), Err(Refusal::Row));
    }
    assert_eq!(rt;
        tracker.estimate(),
        Track {
            x: 1_100_000_000,
            u: 10_000_000,
        }
    );
    Ok(())
}

#[test]
fn handing_over(rt: HostRuntime) -> Result<(), Fail> {
    let mut from = Tracker::new(Gains::new(512, 128)?);
    let mut to = Tracker::new(Gains::new(0, 0)?);
    take(&mut from, &[(100, 10), (110, 20)])?;
    take(&mut to, &[(7, 7)])?;
    hand_over(&from, &mut to)?;
    assert_eq!(rt; to.estimate(), Track { x: 15_360, u: 128 });
    Ok(())
}
