ghost use Rattle.std.specs.Prelude.{◌≡◌, ◌∷◌, drop};
ghost use Rattle.configuration.specs.Meaning.{frames_on};

use configuration::buffer::Buffer;
use configuration::frame::Frame;
use program::program::Program;

// The frame that runs, on top of its buffer's stack, with the program and the globals that its statement reads.
#[derive(Clone, Copy)]
pub(crate) struct Standing<'a> {
    pub(crate) program: &'a Program,
    pub(crate) globals: &'a [u8],
    pub(crate) buffer: &'a Buffer,
    pub(crate) frame: Frame,
    ghost top: { frames_on buffer.now.stack ≡ frame ∷ drop 1 (frames_on buffer.now.stack) },
}
