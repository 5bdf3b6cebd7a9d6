#![tactic(auto)]

// Known programs: small ones whose ends were worked out by hand, for tests and examples.
pub mod bumps;
pub mod error;
mod fill;
pub mod parts;
pub mod puts;
pub mod recursive;
pub mod sampler;
pub mod two_mains;
