// A run: any list of calls, made in turn on one new engine.
// A clause names its start and ledger, as those of `runs::asking` do.
ghost use Rattle.std.specs.Prelude.{◌≡◌, ◌+◌, ◌^◌, ◌<◌, length, IfOk};
ghost use Rattle.reading_log.specs.View.{logged};
ghost use Rattle.engine.specs.Checkpoints.{through};
ghost use Rattle.runs.specs.Ledger.{blank, current, ledger_of, sayings};
ghost use Rattle.runs.specs.Telling.{Tells};
ghost use Rattle.runs.specs.Totals.{offers, withdrawals, settles, total};
ghost use Rattle.runs.specs.Tracing.{LedgerLaw};

use crate::carry::carry;
use crate::plain::{Call, Tally};
use engine::Engine;
use filter::Filter;
use reading::plain::Refusal;
use std::alloc::{AllocError, Global};

// The engine after a run, what each call answered, and the tally.
#[derive(Drop)]
pub struct Finished<F: Filter> {
    pub engine: Engine<F>,
    pub answers: Vec<Result<usize, Refusal>>,
    pub tally: Tally,
}

impl Tally {
    // Adds a call and its answer.
    fn count(&mut self, call: Call, answer: Result<usize, Refusal>)
        requires offered { self.old.offered + offers call answer < 2 ^ 64 }
        requires withdrawn { self.old.withdrawn + withdrawals call answer < 2 ^ 64 }
        requires settled { self.old.settled + settles call answer < 2 ^ 64 }
        ensures offered { self.new.offered ≡ self.old.offered + offers call answer }
        ensures withdrawn { self.new.withdrawn ≡ self.old.withdrawn + withdrawals call answer }
        ensures settled { self.new.settled ≡ self.old.settled + settles call answer }
    {
        match (call, answer) {
            (Call::Offer(_), Ok(_)) => self.offered += 1,
            (Call::Withdraw(_), Ok(_)) => self.withdrawn += 1,
            (Call::Settle(_), Ok(count)) => self.settled += count,
            _ => {}
        }
    }
}

#[tactic(auto, using(crate::proofs::Tracing::ledger_law))]
pub fn run<F: Filter + Drop>(
    heap: Global,
    filter: F,
    calls: &[Call],
) -> Result<Finished<F>, AllocError>
    ensures settings { IfOk result (λ x. F.Filter.settings x.engine.filter ≡ F.Filter.settings filter) }
    ensures state { IfOk result (λ x. F.Filter.state x.engine.filter ≡ through F.Filter filter (F.Filter.state filter) (ledger_of calls.now).standing) }
    ensures floor { IfOk result (λ x. x.engine.floor ≡ (ledger_of calls.now).floor) }
    ensures log { IfOk result (λ x. logged x.engine.log ≡ current (ledger_of calls.now)) }
    ensures answers { IfOk result (λ x. x.answers.items ≡ sayings blank calls.now) }
    ensures offered { IfOk result (λ x. x.tally.offered ≡ total offers calls.now x.answers.items) }
    ensures withdrawn { IfOk result (λ x. x.tally.withdrawn ≡ total withdrawals calls.now x.answers.items) }
    ensures settled { IfOk result (λ x. x.tally.settled ≡ total settles calls.now x.answers.items) }
    ensures whole { IfOk result (λ x. x.tally.offered ≡ x.tally.withdrawn + x.tally.settled + length (logged x.engine.log)) }
    ensures tells { IfOk result (λ x. Tells F.Filter (F.Filter.state filter) (ledger_of calls.now) x.engine) }
    ensures law { LedgerLaw }
{
    let mut engine = Engine::new(filter);
    let mut answers = Vec::new(heap);
    let mut tally = Tally::default();
    for call in calls {
        let answer = carry(&mut engine, *call);
        tally.count(*call, answer);
        answers.push(answer)?;
    }
    Ok(Finished {
        engine,
        answers,
        tally,
    })
}
