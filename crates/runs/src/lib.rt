// Runs of calls on an engine, their ledger, and what holds after every run.
#![tactic(auto)]

pub mod asking;
pub mod carry;
pub mod plain;
pub mod running;
