use crate::frame::Frame;
use fixed::fixed_vec::FixedVec;

// Up to N frames on each other, the lowest first: a stack or a pending task, so that both have all calls.
#[derive(Clone, Copy)]
pub struct Frames<const N: usize> {
    pub(crate) frames: FixedVec<Frame, N>,
}
