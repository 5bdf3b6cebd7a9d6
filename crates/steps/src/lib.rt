#![tactic(auto)]

// The program machine: the steps that a program's configurations have, and the machine that tells them.
mod active;
mod after;
pub mod as_machine;
mod change;
pub mod choice;
mod dispatches;
mod filter;
mod goal;
pub mod label;
mod labels;
mod moves;
pub mod new;
mod offers;
pub mod program_machine;
mod running;
mod standing;
mod taken;
mod values;
