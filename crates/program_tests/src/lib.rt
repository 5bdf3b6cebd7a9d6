#![tactic(auto)]

// Tests of the program machine on the known programs: steps, unlawful and tight lines, refused tables, kinds, and whole questions.
// Expected values are worked out by hand from the rules of the steps and of the line.
#[cfg(test)]
mod dispatches;
#[cfg(test)]
mod flaws;
#[cfg(test)]
mod helpers;
#[cfg(test)]
mod kinds;
#[cfg(test)]
mod leaving;
#[cfg(test)]
mod questions;
#[cfg(test)]
mod statements;
#[cfg(test)]
mod tight;
#[cfg(test)]
mod told_flaws;
#[cfg(test)]
mod unlawful;
