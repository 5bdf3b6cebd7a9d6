// What a byte is in a text: its class, read from a table.
ghost use Rattle.std.specs.Prelude.{◌≡◌};
ghost use Rattle.lexer.specs.Classes.{class};
ghost use Rattle.lexer.specs.Table.{Tabled};

use crate::mark::Mark;
use crate::table::CLASSES;

#[derive(Clone, Copy, PartialEq, Eq, Debug)]
pub enum Class {
    // a to z
    Letter,
    // 0 to 9
    Digit,
    // A byte that stands between tokens.
    Blank,
    // The first byte of a mark.
    Begins(Mark),
    // A byte that begins no token.
    Other,
}

#[tactic(auto, unfolding(crate::specs::Classes::class))]
pub fn class_of(byte: u8) -> Class
    ensures { result ≡ class byte }
{
    looked_up(&CLASSES, byte)
}

// The class of a byte, from a table of all classes.
fn looked_up(table: &[Class; 256], byte: u8) -> Class
    requires { Tabled table.now }
    ensures { result ≡ class byte }
{
    table[usize::from(byte)]
}
