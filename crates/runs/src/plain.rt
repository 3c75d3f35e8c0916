// Calls and questions to an engine, and its answers.
use reading::plain::{Entry, Refusal};
use reading::{Key, Reading};

#[derive(Clone, Copy, PartialEq, Eq, Debug)]
pub enum Call {
    Offer(Reading),
    Withdraw(Key),
    Revise(Reading),
    Settle(u64),
}

// How many offers and withdrawals were accepted, and how many readings were settled.
#[derive(Clone, Copy, PartialEq, Eq, Default, Debug)]
pub struct Tally {
    pub offered: usize,
    pub withdrawn: usize,
    pub settled: usize,
}

#[derive(Clone, Copy, PartialEq, Eq, Debug)]
pub enum Request {
    Make(Call),
    Estimate,
    Floor,
    Length,
    EntryAt(usize),
}

#[derive(Clone, Copy, PartialEq, Eq, Debug)]
pub enum Answer<E> {
    Made(Result<usize, Refusal>),
    Estimated(E),
    FloorIs(u64),
    LengthIs(usize),
    EntryIs(Option<Entry>),
}
