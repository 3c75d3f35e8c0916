// Calls and questions put to engines.
// Each clause names its start and ledger: an invariant of Engine could say only that there are some, and a caller needs to know which.
ghost use Rattle.std.specs.Prelude.{◌≡◌, IfOk, fold, OnOk};
ghost use Rattle.runs.specs.Ledger.{Ledger, ledger_of};
ghost use Rattle.runs.specs.Replies.{replied, asked, replies};
ghost use Rattle.runs.specs.Telling.{Tells};

use crate::carry::carry;
use crate::plain::{Answer, Call, Request};
use crate::running::run;
use engine::Engine;
use filter::Filter;
use std::alloc::{AllocError, Global};

// Puts one call or question to an engine.
#[tactic(auto, using(crate::proofs::Lists::tells_state))]
pub fn reply<F: Filter>(engine: &mut Engine<F>, request: Request) -> Answer<F::Estimate>
    ensures settings { F.Filter.settings engine.new.filter ≡ F.Filter.settings engine.old.filter }
    ensures replied { (start : F.State) (b : Ledger) → Tells F.Filter start b engine.old → result ≡ replied F.Filter (F.Filter.settings engine.old.filter) start b request }
    ensures tells { (start : F.State) (b : Ledger) → Tells F.Filter start b engine.old → Tells F.Filter start (asked b request) engine.new }
{
    match request {
        Request::Make(call) => Answer::Made(carry(engine, call)),
        Request::Estimate => Answer::Estimated(engine.estimate()),
        Request::Floor => Answer::FloorIs(engine.floor()),
        Request::Length => Answer::LengthIs(engine.len()),
        Request::EntryAt(place) => Answer::EntryIs(engine.entry(place)),
    }
}

// Puts a list of calls and questions to an engine, in turn, and gives all answers.
pub fn ask<F: Filter>(
    heap: Global,
    engine: &mut Engine<F>,
    requests: &[Request],
) -> Result<Vec<Answer<F::Estimate>>, AllocError>
    ensures settings { F.Filter.settings engine.new.filter ≡ F.Filter.settings engine.old.filter }
    ensures replies { IfOk result (λ x. (start : F.State) (b : Ledger) → Tells F.Filter start b engine.old → x.items ≡ replies F.Filter (F.Filter.settings engine.old.filter) start b requests.now) }
    ensures tells { OnOk result ((start : F.State) (b : Ledger) → Tells F.Filter start b engine.old → Tells F.Filter start (fold asked b requests.now) engine.new) }
{
    let mut answers = Vec::new(heap);
    for request in requests {
        let answer = reply(engine, *request);
        answers.push(answer)?;
    }
    Ok(answers)
}

// Puts the same list to two engines side by side.
pub fn ask_both<F: Filter>(
    heap: Global,
    first: &mut Engine<F>,
    second: &mut Engine<F>,
    requests: &[Request],
) -> Result<(Vec<Answer<F::Estimate>>, Vec<Answer<F::Estimate>>), AllocError>
    ensures first { IfOk result (λ x. (start : F.State) (b : Ledger) → Tells F.Filter start b first.old → x.0.items ≡ replies F.Filter (F.Filter.settings first.old.filter) start b requests.now) }
    ensures second { IfOk result (λ x. (start : F.State) (b : Ledger) → Tells F.Filter start b second.old → x.1.items ≡ replies F.Filter (F.Filter.settings second.old.filter) start b requests.now) }
{
    let answers = ask(heap, first, requests)?;
    Ok((answers, ask(heap, second, requests)?))
}

// Makes two runs and puts the same list to both engines: where the ledgers are equal, so are the answers.
pub fn compare<F: Filter + Drop>(
    heap: Global,
    filter: F,
    calls: &[Call],
    other: F,
    others: &[Call],
    requests: &[Request],
) -> Result<(Vec<Answer<F::Estimate>>, Vec<Answer<F::Estimate>>), AllocError>
    ensures first { IfOk result (λ x. x.0.items ≡ replies F.Filter (F.Filter.settings filter) (F.Filter.state filter) (ledger_of calls.now) requests.now) }
    ensures second { IfOk result (λ x. x.1.items ≡ replies F.Filter (F.Filter.settings other) (F.Filter.state other) (ledger_of others.now) requests.now) }
    ensures same { IfOk result (λ x.
        F.Filter.settings filter ≡ F.Filter.settings other
        → F.Filter.state filter ≡ F.Filter.state other
        → (ledger_of calls.now).standing ≡ (ledger_of others.now).standing
        → (ledger_of calls.now).floor ≡ (ledger_of others.now).floor
        → x.0.items ≡ x.1.items) }
{
    let mut first = run(heap, filter, calls)?;
    let mut second = run(heap, other, others)?;
    ask_both(heap, &mut first.engine, &mut second.engine, requests)
}
