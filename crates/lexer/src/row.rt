// Rows of bytes that belong together.
ghost use Rattle.std.specs.Prelude.{◌≡◌, ◌≤◌, length};
ghost use Rattle.lexer.specs.Rows.{in_row, takes, row_size};

use crate::class::{Class, class_of};

#[derive(Clone, Copy, PartialEq, Eq, Debug)]
pub enum Row {
    // Letters and digits, as they follow a letter.
    Word,
    // Digits.
    Number,
    // What stands between tokens.
    Blanks,
}

impl Row {
    // Whether a byte of this class goes on with the row.
    fn takes(self, class: Class) -> bool
        ensures { result ≡ takes self class }
    {
        matches!(
            (self, class),
            (Row::Word, Class::Letter | Class::Digit)
                | (Row::Number, Class::Digit)
                | (Row::Blanks, Class::Blank)
        )
    }

    // The same of a byte.
    #[tactic(auto, using(crate::proofs::RowClasses::takes_class))]
    fn takes_byte(self, byte: u8) -> bool
        ensures { result ≡ in_row self byte }
    {
        self.takes(class_of(byte))
    }

    // How many bytes the row has at the front of a text.
    #[tactic(auto, unfolding(crate::specs::Rows::row_size))]
    pub fn size(self, text: &[u8]) -> usize
        ensures count { result ≡ row_size self text.now }
        ensures within { result ≤ length text.now }
    {
        text.iter()
            .take_while(|&&byte| self.takes_byte(byte))
            .count()
    }
}
