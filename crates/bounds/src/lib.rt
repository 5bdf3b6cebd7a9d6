#![tactic(auto)]

// Layers over a machine, machines themselves: one bound, or a stack of them.
mod apart;
pub mod bounded;
mod front;
mod lefts;
pub mod over;
pub mod stack;
