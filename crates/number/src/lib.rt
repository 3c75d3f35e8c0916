// Numbers as journals and telegrams write them, and the guard of a reader's place.
#![tactic(auto)]

pub mod examples;
pub mod guard;
pub mod leb128;
pub mod sign;
#[cfg(test)]
mod tests;
