// Each row of the tables, each fault where its layer says, and journals that are written from calls.
use crate::table::{CUT, FLIPPED, JOURNAL, RAISED};
use engine::Engine;
use filter::Filter;
use journal::plain::{Fault, Layer};
use journal::reader::Reader;
use observer::Observer;
use observer::plain::Bounds;
use observer::rate::Rate;
use playback::carrying::carry_out;
use playback::plain::{Outcome, Report};
use playback::running::run_journal;
use playback::writing::write_calls;
use reading::plain::Refusal;
use reading::{Key, Reading};
use runs::plain::Call;
use runs::running::run;
use std::alloc::Global;
use std::process::Abort;
use std::test::Fail;

fn observer() -> Result<Observer, Refusal> {
    Ok(Observer::new(Rate::new(2)?))
}

// A report as the code that the tables digest, and the place of its fault.
fn coded(report: &Report<'_, Bounds>) -> (u64, usize) {
    match &report.outcome {
        Ok(Outcome::Made(_, count)) => (*count as u64, 0),
        Ok(Outcome::Noted(text)) => ((text.len() as u64).wrapping_add(100), 0),
        Ok(Outcome::Asked(_)) => (200, 0),
        Err(fault) => (300 + u64::from(fault.refusal.number()), fault.place),
    }
}

fn digest(reports: &[Report<'_, Bounds>]) -> u64 {
    let mut all = 0u64;
    for report in reports {
        let (code, at) = coded(report);
        let place = (report.place as u64).wrapping_mul(1000);
        let next = all.wrapping_mul(31).wrapping_add(place);
        all = next
            .wrapping_add(code)
            .wrapping_add((at as u64).wrapping_mul(7))
            % 1_000_003;
    }
    all
}

// The fault that ended a journal, if one did.
fn end(reports: &[Report<'_, Bounds>]) -> Option<Fault> {
    let last = reports.last().filter(|report| report.is_last())?;
    last.outcome.err()
}

// What a journal comes to on a new engine, as the tables have it: where no fault ended it, 0 and its length.
fn row(heap: Global, journal: &[u8]) -> Result<[i64; 9], Fail> {
    let played = run_journal(heap, observer()?, journal)?;
    let (fault, at) = match end(&played.reports) {
        Some(fault) => (fault.refusal.number(), fault.place),
        None => (0, journal.len()),
    };
    let bounds = played.engine.estimate();
    Ok([
        i64::try_from(played.reports.len())?,
        i64::try_from(digest(&played.reports))?,
        i64::from(fault),
        i64::try_from(at)?,
        i64::from(bounds.low),
        i64::from(bounds.high),
        i64::from(bounds.conflicts),
        i64::try_from(played.engine.floor())?,
        i64::try_from(played.engine.len())?,
    ])
}

#[test]
fn cut(rt: HostRuntime) -> Result<(), Fail> {
    for (k, expected) in CUT.iter().enumerate() {
        assert_eq!(rt; row(rt.alloc(), &JOURNAL[..k])?, *expected);
    }
    Ok(())
}

// Row k of a table is of the journal whose byte k is damaged so.
fn damages<F: Fn(u8) -> u8>(
    rt: &impl Abort,
    heap: Global,
    table: &[[i64; 9]; 94],
    damage: F,
) -> Result<(), Fail>
    requires { F.IsAlwaysCallable damage }
{
    for (k, expected) in table.iter().enumerate() {
        let mut damaged = JOURNAL;
        damaged[k] = damage(damaged[k]);
        assert_eq!(rt; row(heap, &damaged)?, *expected);
    }
    Ok(())
}

#[test]
fn flipped(rt: HostRuntime) -> Result<(), Fail> {
    damages(&rt, rt.alloc(), &FLIPPED, |byte| byte ^ 0x80)
}

#[test]
fn raised(rt: HostRuntime) -> Result<(), Fail> {
    damages(&rt, rt.alloc(), &RAISED, |byte| byte.wrapping_add(1))
}

// Goes over a journal; each fault lies where its layer says, and without a whole record reader and engine stay.
fn goes_over(rt: &impl Abort, journal: &[u8]) -> Result<(), Fail> {
    let mut reader = Reader::new(journal);
    let mut engine = Engine::new(observer()?);
    // As many turns as bytes: a reader that stayed would go on for ever.
    for _ in 0..journal.len() {
        let place = reader.place();
        let before = (engine.estimate(), engine.floor(), engine.len());
        let Err(fault) = carry_out(&mut reader, &mut engine) else {
            continue;
        };
        assert_eq!(rt; before, (engine.estimate(), engine.floor(), engine.len()));
        match fault.layer() {
            Layer::Number | Layer::Record => {
                assert!(rt; place <= fault.place);
                assert_eq!(rt; reader.place(), place);
                return Ok(());
            }
            Layer::Reading | Layer::Engine => {
                assert_eq!(rt; fault.place, place);
                assert!(rt; place < reader.place());
            }
        }
    }
    assert_eq!(rt; reader.place(), journal.len());
    Ok(())
}

// By place: a journal is cut there as well as damaged there, so there is no element to go over.
#[test]
fn damaged(rt: HostRuntime) -> Result<(), Fail> {
    for k in 0..JOURNAL.len() {
        goes_over(&rt, &JOURNAL[..k])?;
        let mut damaged = JOURNAL;
        damaged[k] ^= 0x80;
        goes_over(&rt, &damaged)?;
    }
    goes_over(&rt, &JOURNAL)
}

// Three offers, the third late; a settle that drops one; an offer below the floor; an ask.
#[test]
fn whole(rt: HostRuntime) -> Result<(), Fail> {
    let journal = [
        6, 1, 0x64, 0, 1, 0x14, 4, 6, 1, 0x6e, 0, 2, 0x28, 4, 6, 1, 0x69, 1, 1, 0x18, 4, 2, 4,
        0x69, 6, 1, 0x68, 2, 1, 0, 4, 1, 6,
    ];
    let mut reader = Reader::new(&journal);
    let mut engine = Engine::new(observer()?);
    for expected in [0, 1, 1, 1] {
        let Ok(Some(Outcome::Made(_, count))) = carry_out(&mut reader, &mut engine) else {
            return Err(Fail::new("no call"));
        };
        assert_eq!(rt; count, expected);
    }
    let fault = Fault {
        refusal: Refusal::BelowFloor,
        place: 24,
    };
    assert_eq!(rt;
        (fault.refusal.number(), fault.layer()),
        (16, Layer::Engine)
    );
    assert_eq!(rt; carry_out(&mut reader, &mut engine), Err(fault));
    assert_eq!(rt;
        carry_out(&mut reader, &mut engine),
        Ok(Some(Outcome::Asked(())))
    );
    assert_eq!(rt; carry_out(&mut reader, &mut engine), Ok(None));
    let bounds = engine.estimate();
    assert_eq!(rt; (bounds.low, bounds.high, bounds.conflicts), (16, 24, 0));
    Ok(())
}

fn offer(stamp: u64, number: u64, value: i64) -> Result<Call, Refusal> {
    Ok(Call::Offer(Reading::new(stamp, 1, number, value, 4)?))
}

// Offers out of order, one withdrawn, one revised, one twice, and some of them settled.
fn calls(heap: Global) -> Result<Vec<Call>, Fail> {
    let mut all = Vec::new(heap);
    for k in 0..9u64 {
        all.push(offer(100 + 4 * k % 9, k, (k * 13 % 50) as i64)?)?;
    }
    all.push(Call::Withdraw(Key::new(104, 1, 1)?))?;
    all.push(Call::Revise(Reading::new(103, 1, 3, -20, 6)?))?;
    all.push(offer(103, 3, 1)?)?;
    all.push(Call::Settle(104))?;
    Ok(all)
}

// A journal that is written from calls comes to what their run comes to.
#[test]
fn written(rt: HostRuntime) -> Result<(), Fail> {
    let heap = rt.alloc();
    let calls = calls(heap)?;
    let journal = write_calls(heap, &calls)?;
    let played = run_journal(heap, observer()?, &journal)?;
    let done = run(heap, observer()?, &calls)?;
    assert_eq!(rt; played.engine.estimate(), done.engine.estimate());
    assert_eq!(rt; played.engine.floor(), done.engine.floor());
    assert_eq!(rt; played.engine.len(), done.engine.len());
    assert_eq!(rt; played.reports.len(), calls.len());
    Ok(())
}
