// Reads the tokens of a text, one after the other.
ghost use Rattle.std.specs.Prelude.{◌≡◌, ◌+◌, ◌<◌, ◌≤◌, true, false, nat_eq, length, take, IfOk, IfErr};
ghost use Rattle.std.specs.List.{starts_with};
ghost use Rattle.lexer.specs.Bytes.{TextLaw};
ghost use Rattle.lexer.specs.Marks.{spelling};
ghost use Rattle.lexer.specs.Reading.{reader_of};
ghost use Rattle.lexer.specs.Rows.{row_size};
ghost use Rattle.lexer.specs.Tokens.{Tells, moved};
ghost use Rattle.lexer.specs.declared.row.Row.TheVariants.{Blanks};

use crate::class::{Class, class_of};
use crate::fault::LexFault;
use crate::mark::Mark;
use crate::row::Row;
use crate::token::Token;

// The most bytes of a word and of a number.
const LONGEST_WORD: usize = 12;

const LONGEST_NUMBER: usize = 3;

// A text, and the offset of the token that is read next.
#[derive(Clone, Copy, PartialEq, Eq, Debug)]
pub struct Lexer<'a> {
    text: &'a [u8],
    at: usize,
    ghost within: { at ≤ length text.now },
}

impl<'a> Lexer<'a> {
    ghost use Rattle.lexer.specs.Rest.{rest_of};

    // Stands at the first token.
    #[tactic(auto, using(crate::proofs::Law::text_law))]
    pub fn new(text: &'a [u8]) -> Lexer<'a>
        ensures text { result.text.now ≡ text.now }
        ensures first { result.at ≡ (reader_of text.now).first }
        ensures law { TextLaw text.now }
    {
        let mut lexer = Lexer { text, at: 0 };
        lexer.skip_blanks();
        lexer
    }

    // The next token, which stays the next.
    pub fn peek(&self) -> Result<Token<'a>, LexFault>
        ensures { Tells self.now.text.now self.now.at result }
    {
        let [first, ..] = self.rest() else {
            return Ok(Token::End(self.at));
        };
        match class_of(*first) {
            Class::Letter => Ok(Token::Word(self.row(Row::Word, LONGEST_WORD)?, self.at)),
            Class::Digit => Ok(Token::Number(self.row(Row::Number, LONGEST_NUMBER)?, self.at)),
            Class::Begins(mark) => Ok(Token::Mark(mark, self.spelt(mark)?, self.at)),
            Class::Blank | Class::Other => Err(LexFault::Stranger(self.at)),
        }
    }

    // The next token. Moves on behind it; at a fault and at the end it stays.
    // Not an iterator: the end is a token with an offset, and there, as at a fault, the same is told again.
    #[tactic(auto, using(crate::proofs::Seeing::moves))]
    pub fn next(&mut self) -> Result<Token<'a>, LexFault>
        ensures told { Tells self.old.text.now self.old.at result }
        ensures text { self.new.text.now ≡ self.old.text.now }
        ensures at { self.new.at ≡ moved (reader_of self.old.text.now) self.old.at result }
    {
        let token = self.peek()?;
        self.at += token.part().len();
        self.skip_blanks();
        Ok(token)
    }

    // What is left of the text.
    fn rest(&self) -> &'a [u8]
        ensures { result.now ≡ rest_of self.now }
    {
        &self.text[self.at..]
    }

    // The row at the front of the rest, if it has no more bytes than it may have.
    fn row(&self, row: Row, most: usize) -> Result<&'a [u8], LexFault>
        ensures ok { IfOk result (λ part. (row_size row (rest_of self.now) ≤ most) × (part.now ≡ take (row_size row (rest_of self.now)) (rest_of self.now))) }
        ensures err { IfErr result (λ fault. (most < row_size row (rest_of self.now)) × (fault ≡ LexFault.LongRow self.now.at)) }
    {
        let rest = self.rest();
        let size = row.size(rest);
        if size > most {
            return Err(LexFault::LongRow(self.at));
        }
        Ok(&rest[..size])
    }

    // The mark at the front of the rest, if all of its bytes are there.
    fn spelt(&self, mark: Mark) -> Result<&'a [u8], LexFault>
        ensures ok { IfOk result (λ part. (starts_with nat_eq (rest_of self.now) (spelling mark) ≡ true) × (part.now ≡ take (length (spelling mark)) (rest_of self.now))) }
        ensures err { IfErr result (λ fault. (starts_with nat_eq (rest_of self.now) (spelling mark) ≡ false) × (fault ≡ LexFault.Stranger self.now.at)) }
    {
        let rest = self.rest();
        let spelling = mark.spelling();
        if !rest.starts_with(spelling) {
            return Err(LexFault::Stranger(self.at));
        }
        Ok(&rest[..spelling.len()])
    }

    // Moves on behind the blanks at the front of the rest.
    fn skip_blanks(&mut self)
        ensures text { self.new.text.now ≡ self.old.text.now }
        ensures at { self.new.at ≡ self.old.at + row_size Blanks (rest_of self.old) }
    {
        self.at += Row::Blanks.size(self.rest());
    }
}
