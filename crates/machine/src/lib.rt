#![tactic(auto)]

// Machines: lines of bytes, the steps between them, and what the calls of a machine tell.
pub mod at;
pub mod lent;
pub mod machine;
pub mod refusal;
pub mod replay;
pub mod replay_refusal;
pub mod serves;
