use crate::buffer::Buffer;

// A configuration, with room for the most globals and buffers that a program can have: the active buffer, the
// globals and the buffers. The arrays have no lengths of their own: how many globals and buffers count, the program
// says, and a call to which it matters is given the program or the count.
#[derive(Clone, Copy)]
pub struct Configuration {
    pub(crate) active: u8,
    pub(crate) globals: [u8; 8],
    pub(crate) buffers: [Buffer; 3],
}
