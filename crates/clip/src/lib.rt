#![tactic(auto)]

// A sky monitor whose reading clips at the top of its scale, as a machine: an example written by hand.
pub mod clip_watch;
pub mod field;
pub mod kind;
pub mod moves;
pub mod night;
pub mod posting;
pub mod rules;
pub mod search;
pub mod stage;
pub mod standing;
pub mod unknown_byte;
