use crate::frames::Frames;

// The stack of a buffer: up to 8 frames.
pub type Stack = Frames<8>;
