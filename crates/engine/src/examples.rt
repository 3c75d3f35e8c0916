// Answers at the edges, worked by hand, for tests and for commissioning.
#![tactic(auto, unfolding(reading::specs::Order::precedes, reading::specs::Order::same))]

ghost use Rattle.std.specs.Prelude.{◌≡◌};
ghost use Rattle.engine.specs.Examples.{offered, settled, tied, revised_at, crowded};

use reading::plain::Refusal;

// Offers at 100, 110 and 105; then, with floor 105, at 104, 105, 60,105 and 60,106.
pub fn offers() -> [Result<usize, Refusal>; 7]
    ensures { result ≡ offered }
{
    [
        Ok(0),
        Ok(1),
        Ok(1),
        Err(Refusal::BelowFloor),
        Ok(0),
        Ok(0),
        Err(Refusal::AboveFloor),
    ]
}

// Over 100, 105 and 110 a settle at 105, again, and at 104; then at the last stamp and beyond it.
pub fn settles() -> [Result<usize, Refusal>; 5]
    ensures { result ≡ settled }
{
    [
        Ok(1),
        Ok(0),
        Err(Refusal::SettleBelowFloor),
        Ok(3),
        Err(Refusal::Stamp),
    ]
}

// Offers at one stamp: sensors 2, 1, 1 and 2 with numbers 1, 5, 4 and 0.
pub fn ties() -> [Result<usize, Refusal>; 4]
    ensures { result ≡ tied }
{
    [Ok(0), Ok(0), Ok(0), Ok(2)]
}

// Revisions and withdrawals at the first and the last place, and of a key that is not logged.
pub fn revisions() -> [Result<usize, Refusal>; 4]
    ensures { result ≡ revised_at }
{
    [Ok(0), Ok(2), Ok(2), Err(Refusal::KeyNotLogged)]
}

// Offers to logs of 63 and 64: of a new key, and of one that is logged.
pub fn crowds() -> [Result<usize, Refusal>; 4]
    ensures { result ≡ crowded }
{
    [
        Ok(63),
        Err(Refusal::LogFull),
        Err(Refusal::KeyLogged),
        Err(Refusal::KeyLogged),
    ]
}
