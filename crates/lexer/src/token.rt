// A token, with its own part of the text and the offset at which it begins.
ghost use Rattle.std.specs.Prelude.{◌≡◌};
ghost use Rattle.lexer.specs.Tokens.{offset_of, part_of};

use crate::mark::Mark;

// Each case has what it alone has: a word and a number borrow their text.
#[derive(Clone, Copy, PartialEq, Eq, Debug)]
pub enum Token<'a> {
    // A letter, and the letters and digits after it.
    Word(&'a [u8], usize),
    // Digits.
    Number(&'a [u8], usize),
    // A mark.
    Mark(Mark, &'a [u8], usize),
    // The end of the text.
    End(usize),
}

impl<'a> Token<'a> {
    // Where the token begins.
    pub fn offset(&self) -> usize
        ensures { result ≡ offset_of self.now }
    {
        match self {
            Token::Word(_, offset)
            | Token::Number(_, offset)
            | Token::Mark(_, _, offset)
            | Token::End(offset) => *offset,
        }
    }

    // The token's own bytes; the end has none.
    pub fn part(&self) -> &'a [u8]
        ensures { result.now ≡ part_of self.now }
    {
        match self {
            Token::Word(part, _) | Token::Number(part, _) | Token::Mark(_, part, _) => part,
            Token::End(_) => &[],
        }
    }
}
