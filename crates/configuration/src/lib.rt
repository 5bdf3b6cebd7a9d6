#![tactic(auto)]

// Configurations of a program: frames, stacks, pending tasks, and the lines that tell them.
mod ascending;
pub mod buffer;
mod buffering;
pub mod configuration;
mod configuring;
mod decode;
mod encode;
pub mod frame;
pub mod frames;
mod key;
mod lawful;
mod lawful_frames;
mod pending;
mod read_buffers;
mod read_frames;
pub mod reading;
mod runs;
mod slot;
pub mod stack;
mod stacking;
mod starting;
pub mod task;
mod write_buffers;
mod write_frames;
pub mod wrong_length;
