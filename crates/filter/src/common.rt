// What filters have in common: settings, limits, rows, and the law of rows as a call.
ghost use Rattle.std.specs.Prelude.{◌≡◌, ◌↔◌, ◌≤◌, IfOk, IsTrue, Ok, unsigned_abs};
ghost use Rattle.filter.specs.Common.{limit, padded, setting};

use crate::{Filter, Row};
use reading::plain::Refusal;

// A number as a setting, refused above the greatest that it may be.
pub fn setting(number: u64, most: u64) -> Result<u64, Refusal>
    ensures value { result ≡ setting number most }
    ensures within { IfOk result (λ n. n ≤ most) }
{
    if number > most {
        return Err(Refusal::Setting);
    }
    Ok(number)
}

// A number, limited to -most to most.
#[tactic(auto, using(std::proofs::lemmas::Int::ints, std::proofs::lemmas::Int::clamps), unfolding(crate::specs::Common::limit))]
pub fn limited(most: u32, z: i64) -> i64
    ensures value { result ≡ limit most z }
    ensures within { unsigned_abs result ≤ most }
{
    let end = i64::from(most);
    z.clamp(-end, end)
}

// The row that begins with these numbers and goes on with zeros, which a literal says as shortly as Default.
pub fn padded(head: &[i64]) -> Row
    ensures { result ≡ padded head.now }
{
    let mut row = [0; 24];
    let n = head.len().min(24);
    row[0..n].copy_from_slice(&head[0..n]);
    row
}

// Whether two rows are one.
pub fn same_row(a: &Row, b: &Row) -> bool
    ensures { IsTrue result ↔ (a.now ≡ b.now) }
{
    *a == *b
}

// Hands one filter's state to another of its kind, by way of a row: the other then has that state, whichever it had before.
pub fn hand_over<F: Filter>(from: &F, to: &mut F) -> Result<(), Refusal>
    ensures answer { result ≡ Ok tt }
    ensures state { F.Filter.state to.new ≡ F.Filter.state from.now }
    ensures settings { F.Filter.settings to.new ≡ F.Filter.settings to.old }
{
    let mut row = [0; 24];
    from.save(&mut row);
    to.restore(&row)
}
