use configuration::buffer::Buffer;

// What a step changes: which buffer is active, the globals, and the buffer that was active.
#[derive(Clone, Copy)]
pub(crate) struct Change {
    pub(crate) active: u8,
    pub(crate) globals: [u8; 8],
    pub(crate) buffer: Buffer,
}
