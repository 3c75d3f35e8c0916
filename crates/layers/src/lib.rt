// Layers that stand over a filter and are filters themselves.
#![tactic(auto)]

pub mod bias;
pub mod biases;
pub mod gate;
pub mod limit;
