#![tactic(auto)]

// A list of at most N items that lies in the value itself.
pub mod fixed_vec;
pub mod full;
#[cfg(test)]
mod tests;
