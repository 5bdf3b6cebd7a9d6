ghost use Rattle.std.specs.Prelude.{◌≡◌, Some, ◌++◌, codes};
ghost use Rattle.std.specs.Fmt.{decimal, styled_text};
ghost use Rattle.program.specs.Kinds.{number, named, kind_of, kind_named, Decodes};
ghost use Rattle.program.specs.KindLaws.{Numbered, Named};

use std::error::Error;
use std::fmt;

// The kinds of steps, in the order of their numbers.
#[derive(Clone, Copy, PartialEq, Eq, Debug)]
pub enum Kind {
    Skip,
    Assume,
    Then,
    Else,
    Assign,
    Do,
    End,
    Call,
    Return,
    Resume,
    Post,
    Dispatch,
    Yield,
    Zield,
}

// A number that is no kind's.
#[derive(Clone, Copy, PartialEq, Eq, Debug)]
pub struct UnknownKind(pub u8);

impl Error for UnknownKind {}

impl fmt::Display for UnknownKind {
    ghost output = { λ e. Some (codes "no kind has the number " ++ decimal e.0) };

    fn fmt<W: fmt::Write>(&self, f: &mut fmt::Formatter<W>) -> fmt::Result {
        write!(f, "no kind has the number {}", self.0)
    }
}

const KINDS: [Kind; 14] = [
    Kind::Skip,
    Kind::Assume,
    Kind::Then,
    Kind::Else,
    Kind::Assign,
    Kind::Do,
    Kind::End,
    Kind::Call,
    Kind::Return,
    Kind::Resume,
    Kind::Post,
    Kind::Dispatch,
    Kind::Yield,
    Kind::Zield,
];

impl Kind {
    // The number by which a step tells its kind.
    pub fn number(self) -> u8
        ensures { result ≡ number self }
    {
        self as u8
    }

    // The word by which it is printed.
    pub fn name(self) -> &'static str
        ensures { result.now ≡ named self }
    {
        match self {
            Kind::Skip => "skip",
            Kind::Assume => "assume",
            Kind::Then => "then",
            Kind::Else => "else",
            Kind::Assign => "assign",
            Kind::Do => "do",
            Kind::End => "end",
            Kind::Call => "call",
            Kind::Return => "return",
            Kind::Resume => "resume",
            Kind::Post => "post",
            Kind::Dispatch => "dispatch",
            Kind::Yield => "yield",
            Kind::Zield => "zield",
        }
    }

    // The kind of a number, if it is one's.
    pub fn of(n: u8) -> Option<Kind>
        ensures told { result ≡ kind_of n }
        ensures law { Numbered n }
    {
        Kind::try_from(n).ok()
    }

    // The kind of a word, if it is one's.
    pub fn of_name(word: &[u8]) -> Option<Kind>
        ensures told { result ≡ kind_named word.now }
        ensures law { Named word.now }
    {
        // a loop, since by `iter` and `find` a look-up takes more than three times as long
        for kind in KINDS {
            if word == kind.name().as_bytes() {
                return Some(kind);
            }
        }
        None
    }
}

impl TryFrom<u8> for Kind {
    type Error = UnknownKind;

    ghost try_from_gives = { Decodes };

    fn try_from(n: u8) -> Result<Kind, UnknownKind> {
        KINDS.get(usize::from(n)).copied().ok_or(UnknownKind(n))
    }
}

impl fmt::Display for Kind {
    ghost output = { λ k. Some (named k) };

    ghost styled_output = { λ k s. Some (styled_text s (named k)) };

    fn fmt<W: fmt::Write>(&self, f: &mut fmt::Formatter<W>) -> fmt::Result {
        f.pad(self.name())
    }
}
