ghost use Rattle.std.specs.Prelude.{◌≡◌};
ghost use Rattle.lexer.specs.Marks.{spelling};

// A token that is neither a word nor a number.
#[derive(Clone, Copy, PartialEq, Eq, Debug)]
pub enum Mark {
    // {
    Open,
    // }
    Close,
    // (
    Left,
    // )
    Right,
    // ;
    Semicolon,
    // :=
    Becomes,
    // +
    Plus,
    // -
    Minus,
    // =
    Equal,
    // <
    Less,
    // &
    And,
    // |
    Or,
    // !
    Not,
    // *
    Star,
    // _
    Any,
}

impl Mark {
    // The mark as it is written.
    pub fn spelling(self) -> &'static [u8]
        ensures { result.now ≡ spelling self }
    {
        match self {
            Mark::Open => b"{",
            Mark::Close => b"}",
            Mark::Left => b"(",
            Mark::Right => b")",
            Mark::Semicolon => b";",
            Mark::Becomes => b":=",
            Mark::Plus => b"+",
            Mark::Minus => b"-",
            Mark::Equal => b"=",
            Mark::Less => b"<",
            Mark::And => b"&",
            Mark::Or => b"|",
            Mark::Not => b"!",
            Mark::Star => b"*",
            Mark::Any => b"_",
        }
    }
}
