// Settings and rows at the edges of their ranges, the worked examples, and counts that are full.
use crate::Histogram;
use crate::bins::Bins;
use crate::examples::worked_examples;
use filter::Filter;
use filter::common::{hand_over, padded};
use reading::Reading;
use reading::plain::Refusal;
use std::test::Fail;

// Takes a reading of each value at its stamp. The tracker's tests have the same helper, since one for both would be public code.
fn take(histogram: &mut Histogram, readings: &[(u64, i64)]) -> Result<(), Refusal> {
    for &(stamp, value) in readings {
        histogram.step(Reading::new(stamp, 0, 0, value, 0)?);
    }
    Ok(())
}

#[test]
fn settings(rt: HostRuntime) -> Result<(), Fail> {
    let low = Bins::new(-1_000_000, 1)?;
    let high = Bins::new(1_000_000, 100_000)?;
    assert_eq!(rt; [low.origin(), high.origin()], [-1_000_000, 1_000_000]);
    assert_eq!(rt; [low.width(), high.width()], [1, 100_000]);
    let below = Bins::new(-1_000_001, 1);
    let above = Bins::new(1_000_001, 1);
    let narrow = Bins::new(0, 0);
    let wide = Bins::new(0, 100_001);
    assert_eq!(rt; [below, above, narrow, wide], [Err(Refusal::Setting); 4]);
    Ok(())
}

#[test]
fn examples(rt: HostRuntime) -> Result<(), Fail> {
    let values = [-1, 9, 10, 159, 160];
    for (value, bin) in values.iter().zip(&worked_examples()) {
        let mut histogram = Histogram::new(Bins::new(0, 10)?);
        take(&mut histogram, &[(5, *value)])?;
        assert_eq!(rt; histogram.estimate().get(*bin), Some(&1));
    }
    Ok(())
}

#[test]
fn full(rt: HostRuntime) -> Result<(), Fail> {
    let mut histogram = Histogram::new(Bins::new(0, 10)?);
    histogram.restore(&padded(&[2, 9, 0, 4_294_967_294]))?;
    take(&mut histogram, &[(7, 15), (12, 15), (11, 15)])?;
    let mut row = [7; 24];
    histogram.save(&mut row);
    assert_eq!(rt; row, padded(&[2, 12, 0, 4_294_967_295]));
    Ok(())
}

#[test]
fn rows(rt: HostRuntime) -> Result<(), Fail> {
    let mut histogram = Histogram::new(Bins::new(0, 10)?);
    let mut most = [4_294_967_295; 18];
    most[0] = 2;
    most[1] = 281_474_976_710_655;
    let high = padded(&most);
    for row in &[padded(&[2]), high] {
        let mut back = [7; 24];
        histogram.restore(row)?;
        histogram.save(&mut back);
        assert_eq!(rt; back, *row);
    }
    let out = [
        (0, 3),
        (1, -1),
        (1, 281_474_976_710_656),
        (2, -1),
        (2, 4_294_967_296),
        (17, -1),
        (17, 4_294_967_296),
        (18, 1),
        (23, 1),
    ];
    for &(place, number) in &out {
        let mut row = high;
        row[place] = number;
        assert_eq!(rt; histogram.restore(&row), Err(Refusal::Row));
    }
    assert_eq!(rt; histogram.estimate(), [4_294_967_295; 16]);
    Ok(())
}

#[test]
fn handing_over(rt: HostRuntime) -> Result<(), Fail> {
    let tens = Bins::new(0, 10)?;
    let mut from = Histogram::new(tens);
    let mut to = Histogram::new(tens);
    take(&mut from, &[(5, -1), (6, 15), (7, 160)])?;
    take(&mut to, &[(1, 1), (2, 25)])?;
    hand_over(&from, &mut to)?;
    assert_eq!(rt;
        to.estimate(),
        [1, 1, 0, 0, 0, 0, 0, 0, 0, 0, 0, 0, 0, 0, 0, 1]
    );
    Ok(())
}
