// One call, carried out.
// A clause names its start and ledger, as those of `runs::asking` do.
ghost use Rattle.std.specs.Prelude.{◌≡◌};
ghost use Rattle.runs.specs.Ledger.{Ledger, plain, said, noted};
ghost use Rattle.runs.specs.Moving.{Moved};
ghost use Rattle.runs.specs.Telling.{Tells};

use crate::plain::Call;
use engine::Engine;
use filter::Filter;
use reading::plain::Refusal;

// Makes a call on an engine: one that is as a ledger says answers as the ledger does, and stays so.
pub fn carry<F: Filter>(engine: &mut Engine<F>, call: Call) -> Result<usize, Refusal>
    ensures moved { Moved F.Filter (plain call) result engine.old engine.new }
    ensures settings { F.Filter.settings engine.new.filter ≡ F.Filter.settings engine.old.filter }
    ensures said { (start : F.State) (b : Ledger) → Tells F.Filter start b engine.old → result ≡ said b call }
    ensures tells { (start : F.State) (b : Ledger) → Tells F.Filter start b engine.old → Tells F.Filter start (noted b call) engine.new }
{
    match call {
        Call::Offer(reading) => engine.offer(reading),
        Call::Withdraw(key) => engine.withdraw(key),
        Call::Revise(reading) => engine.revise(reading),
        Call::Settle(ticks) => engine.settle(ticks),
    }
}
