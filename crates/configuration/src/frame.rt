// A frame: the place of its next statement, its own value l, and its level.
#[derive(Clone, Copy, Default)]
pub struct Frame {
    pub place: u8,
    pub l: u8,
    pub level: u8,
}
