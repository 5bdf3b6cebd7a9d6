#![tactic(auto)]

// One whole question: begin, advance as far as the store can take it, verdict, trace and settle.
pub mod ask;
