// Texts at the edges of the rules.
use crate::fault::LexFault;
use crate::lexer::Lexer;
use crate::token::Token;

// How many tokens stand before the end or the first fault, and that fault or the offset of the end.
fn read(text: &[u8]) -> (u8, Result<usize, LexFault>) {
    let mut lexer = Lexer::new(text);
    for count in 0..100u8 {
        match lexer.next() {
            Ok(Token::End(offset)) => return (count, Ok(offset)),
            Ok(_) => {}
            Err(fault) => return (count, Err(fault)),
        }
    }
    (100, Ok(0))
}

#[test]
fn rows_end_at_their_limits(rt: HostRuntime) {
    assert_eq!(rt; read(b"abcdefghijkl"), (1, Ok(12)));
    assert_eq!(rt; read(b" abcdefghijk10"), (0, Err(LexFault::LongRow(1))));
    assert_eq!(rt; read(b"007"), (1, Ok(3)));
    assert_eq!(rt; read(b"a 1234"), (1, Err(LexFault::LongRow(2))));
}

#[test]
fn strangers_are_faults(rt: HostRuntime) {
    assert_eq!(rt; read(b":"), (0, Err(LexFault::Stranger(0))));
    assert_eq!(rt; read(b"a: ="), (1, Err(LexFault::Stranger(1))));
    assert_eq!(rt; read(b"aB"), (1, Err(LexFault::Stranger(1))));
}

#[test]
fn blanks_and_marks(rt: HostRuntime) {
    assert_eq!(rt; read(b""), (0, Ok(0)));
    assert_eq!(rt; read(b" \t\n\r"), (0, Ok(4)));
    assert_eq!(rt; read(b"a \t\n\rb"), (2, Ok(6)));
    assert_eq!(rt; read(b"{}();:=+-=<&|!*_"), (15, Ok(16)));
}

#[test]
fn a_number_and_then_a_word(rt: HostRuntime) {
    let mut lexer = Lexer::new(b"12ab");
    assert_eq!(rt; lexer.next(), Ok(Token::Number(b"12", 0)));
    assert_eq!(rt; lexer.peek(), Ok(Token::Word(b"ab", 2)));
}
