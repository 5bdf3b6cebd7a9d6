// The kinds of steps with their numbers and words.
use program::kind::Kind;
use std::process::Abort;
use std::test::Fail;

const WORDS: [&str; 14] = [
    "skip", "assume", "then", "else", "assign", "do", "end", "call", "return", "resume", "post",
    "dispatch", "yield", "zield",
];

// The word of the kind of that number leads back to the number.
fn known(rt: &impl Abort, number: u8, word: &str) -> Result<(), Fail> {
    let kind = Kind::of(number).ok_or("no kind has the number")?;
    assert_eq!(rt; kind.number(), number);
    assert_eq!(rt; kind.name(), word);
    assert_eq!(rt; Kind::of_name(word.as_bytes()), Some(kind));
    Ok(())
}

#[test]
fn numbers_and_words(rt: HostRuntime) -> Result<(), Fail> {
    for (number, word) in (0..14u8).zip(WORDS) {
        known(&rt, number, word)?;
    }
    assert_eq!(rt; Kind::Skip.number(), 0);
    assert_eq!(rt; Kind::Dispatch.number(), 11);
    assert_eq!(rt; Kind::Zield.number(), 13);
    Ok(())
}

#[test]
fn no_kinds(rt: HostRuntime) {
    assert_eq!(rt; Kind::of(14), None);
    assert_eq!(rt; Kind::of(255), None);
    assert_eq!(rt; Kind::of_name(b""), None);
    assert_eq!(rt; Kind::of_name(b"ski"), None);
    assert_eq!(rt; Kind::of_name(b"skips"), None);
    assert_eq!(rt; Kind::of_name(b"Skip"), None);
}
