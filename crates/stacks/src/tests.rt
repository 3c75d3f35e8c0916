// Three stacks, and both layers at their limits.
use crate::{GateExample, worked_example};
use filter::common::hand_over;
use filter::{Filter, Forecasting};
use histogram::Histogram;
use histogram::bins::Bins;
use layers::bias::Bias;
use layers::biases::Biases;
use layers::gate::Gate;
use layers::limit::Limit;
use observer::Observer;
use observer::plain::Bounds;
use observer::rate::Rate;
use reading::plain::Refusal;
use reading::{Reading, Stamp};
use std::test::Fail;
use tracker::Tracker;
use tracker::gains::Gains;
use tracker::plain::Track;

// A helper of these tests alone, since one for all filters' tests would be public code.
fn step<F: Filter>(f: &mut F, stamp: u64, sensor: u64, value: i64) -> Result<(), Refusal> {
    f.step(Reading::new(stamp, sensor, 0, value, 4)?);
    Ok(())
}

// Gate over bias over tracker: 12 from a sensor that is off by 2 is 10, and so on.
#[test]
fn gate_over_bias_over_tracker(rt: HostRuntime) -> Result<(), Fail> {
    let mut below = Bias::new(Tracker::new(Gains::new(512, 128)?));
    below.set(1, 2)?;
    let mut stack = Gate::new(Limit::new(5)?, below);
    step(&mut stack, 100, 1, 12)?;
    step(&mut stack, 105, 1, 14)?;
    let forecast = stack.forecast(Stamp::new(110)?);
    let before = stack.estimate();
    // the gate sees the value as it came
    step(&mut stack, 110, 1, 17)?;
    let held = stack.estimate();
    step(&mut stack, 110, 1, 16)?;
    let passed = stack.estimate();
    assert_eq!(rt; held, before);
    assert_ne!(rt; passed, before);
    assert_eq!(rt; forecast, worked_example().forecast);
    assert_eq!(rt;
        worked_example(),
        GateExample {
            forecast: Some(11),
            passes_16: true,
            passes_17: false,
        }
    );
    Ok(())
}

// Bias over gate over observer: rate 2, spread 4, all values 5 too high; 40 at 111 is held back.
#[test]
fn bias_over_gate_over_observer(rt: HostRuntime) -> Result<(), Fail> {
    let mut stack = Bias::new(Gate::new(Limit::new(10)?, Observer::new(Rate::new(2)?)));
    stack.set(3, 5)?;
    step(&mut stack, 100, 3, 15)?;
    step(&mut stack, 105, 3, 17)?;
    step(&mut stack, 110, 3, 25)?;
    let three = Bounds {
        low: 16,
        high: 24,
        conflicts: 0,
    };
    assert_eq!(rt; stack.estimate(), three);
    step(&mut stack, 111, 3, 45)?;
    assert_eq!(rt; stack.estimate(), three);
    // last is still 110: a reading held back leaves the whole state
    let mut row = [0; 24];
    stack.save(&mut row);
    assert_eq!(rt; row[1], 110);
    // 30 differs from the forecast 20 by just the limit
    step(&mut stack, 111, 3, 35)?;
    assert_eq!(rt;
        stack.estimate(),
        Bounds {
            low: 26,
            high: 26,
            conflicts: 0,
        }
    );
    Ok(())
}

// Bias over bias over histogram: both corrections count, and the value stays within its range.
#[test]
fn bias_over_bias_over_histogram(rt: HostRuntime) -> Result<(), Fail> {
    let mut below = Bias::new(Histogram::new(Bins::new(-1_000_000, 100_000)?));
    below.set(0, 100_000)?;
    let mut stack = Bias::new(below);
    stack.set(0, 100_000)?;
    step(&mut stack, 1, 0, -1_000_000)?;
    step(&mut stack, 2, 0, 100_000)?;
    step(&mut stack, 3, 2, 1_000_000)?;
    let mut other = Bias::new(Bias::new(Histogram::new(Bins::new(0, 1)?)));
    hand_over(&stack, &mut other)?;
    assert_eq!(rt;
        other.estimate(),
        [1, 0, 0, 0, 0, 0, 0, 0, 0, 1, 0, 0, 0, 0, 0, 1]
    );
    Ok(())
}

#[test]
fn settings_at_their_edges(rt: HostRuntime) -> Result<(), Fail> {
    let mut table = Biases::new();
    assert_eq!(rt; table.set(15, 100_000), Ok(()));
    assert_eq!(rt; table.set(0, -100_000), Ok(()));
    assert_eq!(rt; table.set(16, 100_001), Err(Refusal::Sensor));
    assert_eq!(rt; table.set(15, 100_001), Err(Refusal::Setting));
    assert_eq!(rt; table.set(0, -100_001), Err(Refusal::Setting));
    assert_eq!(rt;
        [table.of(0), table.of(1), table.of(15), table.of(16)],
        [-100_000, 0, 100_000, 0]
    );
    assert_eq!(rt; Limit::new(2_000_000)?.most(), 2_000_000);
    assert!(rt; Limit::new(2_000_001).is_err());
    Ok(())
}
