#![tactic(auto)]

// The words, numbers and marks of a text.
pub mod class;
pub mod fault;
pub mod lexer;
pub mod mark;
pub mod row;
mod table;
#[cfg(test)]
mod tests;
pub mod token;
