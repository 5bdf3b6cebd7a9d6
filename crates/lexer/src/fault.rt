// Why a text cannot be read on.
ghost use Rattle.std.specs.Prelude.{◌≡◌};
ghost use Rattle.lexer.specs.Faults.{fault_number, fault_offset};

// A fault, with the offset of the byte that shows it; each case has it itself, as each token does. It is told by
// its number and its offset, and nobody prints it.
#[derive(Clone, Copy, PartialEq, Eq, Debug)]
pub enum LexFault {
    // A word or a number that is too long, at its first byte.
    LongRow(usize),
    // A byte that no token has there.
    Stranger(usize),
}

impl LexFault {
    // Both have one number. A match, so that a third fault has to say its number.
    pub fn number(self) -> u8
        ensures { result ≡ fault_number self }
    {
        match self {
            LexFault::LongRow(_) | LexFault::Stranger(_) => 2,
        }
    }

    pub fn offset(self) -> usize
        ensures { result ≡ fault_offset self }
    {
        match self {
            LexFault::LongRow(offset) | LexFault::Stranger(offset) => offset,
        }
    }
}
