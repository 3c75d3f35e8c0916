// Late and in key order come to the same, over every filter and several stacks.
use engine::Engine;
use filter::Filter;
use histogram::Histogram;
use histogram::bins::Bins;
use layers::bias::Bias;
use layers::gate::Gate;
use layers::limit::Limit;
use observer::Observer;
use observer::rate::Rate;
use reading::Reading;
use reading::plain::Refusal;
use runs::plain::Call;
use runs::running::run;
use std::alloc::Global;
use std::process::Abort;
use std::test::Fail;
use tracker::Tracker;
use tracker::gains::Gains;

// Reading k, at one of twenty stamps five ticks apart; 7 k runs through all of them out of order.
fn reading(k: u64, value: i64) -> Result<Reading, Refusal> {
    Reading::new(100 + 5 * (7 * (k % 20) % 20), k % 3, k % 20, value, 4)
}

// Twenty offers out of order, one withdrawn, one revised, and half of them settled.
fn late(heap: Global) -> Result<Vec<Call>, Fail> {
    let mut calls = Vec::new(heap);
    for k in 0..20u64 {
        calls.push(Call::Offer(reading(k, (k * 13 % 50) as i64)?))?;
    }
    calls.push(Call::Withdraw(reading(4, 0)?.key()))?;
    calls.push(Call::Revise(reading(5, 47)?))?;
    calls.push(Call::Settle(150))?;
    Ok(calls)
}

// A filter stepped once through what stands, in key order: reading 3 s is the one at the stamp s.
fn stepped<F: Filter>(filter: &mut F) -> Result<(), Refusal> {
    for s in 0..20u64 {
        let k = 3 * s % 20;
        if k != 4 {
            let value = if k == 5 { 47 } else { (k * 13 % 50) as i64 };
            filter.step(reading(k, value)?);
        }
    }
    Ok(())
}

fn agrees<E, F, M>(rt: &impl Abort, heap: Global, make: M) -> Result<(), Fail>
where
    E: PartialEq + Copy,
    F: Filter<Estimate = E> + Drop,
    M: Fn() -> Result<F, Refusal>,
    requires { M.IsAlwaysCallable make }
{
    let mut plain = make()?;
    stepped(&mut plain)?;
    let calls = late(heap)?;
    let finished = run(heap, make()?, calls.as_slice())?;
    assert!(rt; finished.engine.estimate() == plain.estimate());
    // nineteen stand, ten of the twenty stamps are below 150, and reading 4, at 140, was one of them
    assert!(rt; finished.engine.len() == 10 && finished.tally.settled == 9);
    Ok(())
}

#[test]
fn filters(rt: HostRuntime) -> Result<(), Fail> {
    let heap = rt.alloc();
    let rate = Rate::new(1)?;
    agrees(&rt, heap, || Ok(Observer::new(rate)))?;
    let bins = Bins::new(0, 5)?;
    agrees(&rt, heap, || Ok(Histogram::new(bins)))?;
    let gains = Gains::new(512, 128)?;
    agrees(&rt, heap, || Ok(Tracker::new(gains)))
}

fn tracking(gains: Gains, limit: Limit) -> Result<Gate<Bias<Tracker>>, Refusal> {
    let mut below = Bias::new(Tracker::new(gains));
    below.set(1, 7)?;
    Ok(Gate::new(limit, below))
}

fn observing(rate: Rate, limit: Limit) -> Result<Bias<Gate<Observer>>, Refusal> {
    let mut stack = Bias::new(Gate::new(limit, Observer::new(rate)));
    stack.set(2, -9)?;
    Ok(stack)
}

#[test]
fn stacks(rt: HostRuntime) -> Result<(), Fail> {
    let heap = rt.alloc();
    let limit = Limit::new(15)?;
    let gains = Gains::new(512, 128)?;
    agrees(&rt, heap, || tracking(gains, limit))?;
    let rate = Rate::new(1)?;
    agrees(&rt, heap, || observing(rate, limit))?;
    let bins = Bins::new(0, 5)?;
    let twice = || Ok(Bias::new(Bias::new(Histogram::new(bins))));
    agrees(&rt, heap, twice)
}

fn at(stamp: u64) -> Result<Reading, Refusal> {
    Reading::new(stamp, 0, 0, 10, 4)
}

// Every answer at its edge: a stamp equal to the floor is not too old, one 60,000 above it not too new.
#[test]
fn edges(rt: HostRuntime) -> Result<(), Fail> {
    let mut engine = Engine::new(Observer::new(Rate::new(2)?));
    assert_eq!(rt; engine.offer(at(100)?), Ok(0));
    assert_eq!(rt; engine.offer(at(110)?), Ok(1));
    assert_eq!(rt; engine.offer(at(105)?), Ok(1));
    assert_eq!(rt; engine.offer(at(105)?), Err(Refusal::KeyLogged));
    assert_eq!(rt; engine.settle(105), Ok(1));
    assert_eq!(rt; engine.settle(105), Ok(0));
    assert_eq!(rt; engine.settle(104), Err(Refusal::SettleBelowFloor));
    assert_eq!(rt; engine.settle(281_474_976_710_656), Err(Refusal::Stamp));
    assert_eq!(rt; engine.offer(at(104)?), Err(Refusal::BelowFloor));
    assert_eq!(rt; engine.offer(at(60_105)?), Ok(2));
    assert_eq!(rt; engine.offer(at(60_106)?), Err(Refusal::AboveFloor));
    assert_eq!(rt; engine.withdraw(at(104)?.key()), Err(Refusal::BelowFloor));
    assert_eq!(rt; engine.withdraw(at(106)?.key()), Err(Refusal::KeyNotLogged));
    assert_eq!(rt; engine.revise(at(106)?), Err(Refusal::KeyNotLogged));
    assert_eq!(rt; engine.revise(at(105)?), Ok(0));
    assert_eq!(rt; engine.withdraw(at(110)?.key()), Ok(1));
    assert!(rt; engine.len() == 2 && engine.floor() == 105 && engine.entry(2).is_none());
    Ok(())
}
