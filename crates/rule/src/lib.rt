#![tactic(auto)]

// Rules of layers: how one byte in front of a line moves at each step. A bound is such a rule.
pub mod bound;
pub mod charge;
pub mod rule;
