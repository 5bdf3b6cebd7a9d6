// The class of each byte, written out for all 256, so that a byte is told by one look into a table.
use crate::class::Class;
use crate::class::Class::*;
use crate::mark::Mark::*;

pub static CLASSES: [Class; 256] = [
    Other,
    Other,
    Other,
    Other,
    Other,
    Other,
    Other,
    Other,
    Other,
    Blank, // tab
    Blank, // line feed
    Other,
    Other,
    Blank, // carriage return
    Other,
    Other,
    Other,
    Other,
    Other,
    Other,
    Other,
    Other,
    Other,
    Other,
    Other,
    Other,
    Other,
    Other,
    Other,
    Other,
    Other,
    Other,
    Blank, // space
    Begins(Not), // !
    Other, // "
    Other, // #
    Other, // $
    Other, // %
    Begins(And), // &
    Other, // '
    Begins(Left), // (
    Begins(Right), // )
    Begins(Star), // *
    Begins(Plus), // +
    Other, // ,
    Begins(Minus), // -
    Other, // .
    Other, // /
    Digit, // 0
    Digit, // 1
    Digit, // 2
    Digit, // 3
    Digit, // 4
    Digit, // 5
    Digit, // 6
    Digit, // 7
    Digit, // 8
    Digit, // 9
    Begins(Becomes), // :
    Begins(Semicolon), // ;
    Begins(Less), // <
    Begins(Equal), // =
    Other, // >
    Other, // ?
    Other, // @
    Other, // A
    Other, // B
    Other, // C
    Other, // D
    Other, // E
    Other, // F
    Other, // G
    Other, // H
    Other, // I
    Other, // J
    Other, // K
    Other, // L
    Other, // M
    Other, // N
    Other, // O
    Other, // P
    Other, // Q
    Other, // R
    Other, // S
    Other, // T
    Other, // U
    Other, // V
    Other, // W
    Other, // X
    Other, // Y
    Other, // Z
    Other, // [
    Other, // \
    Other, // ]
    Other, // ^
    Begins(Any), // _
    Other, // `
    Letter, // a
    Letter, // b
    Letter, // c
    Letter, // d
    Letter, // e
    Letter, // f
    Letter, // g
    Letter, // h
    Letter, // i
    Letter, // j
    Letter, // k
    Letter, // l
    Letter, // m
    Letter, // n
    Letter, // o
    Letter, // p
    Letter, // q
    Letter, // r
    Letter, // s
    Letter, // t
    Letter, // u
    Letter, // v
    Letter, // w
    Letter, // x
    Letter, // y
    Letter, // z
    Begins(Open), // {
    Begins(Or), // |
    Begins(Close), // }
    Other, // ~
    Other,
    Other,
    Other,
    Other,
    Other,
    Other,
    Other,
    Other,
    Other,
    Other,
    Other,
    Other,
    Other,
    Other,
    Other,
    Other,
    Other,
    Other,
    Other,
    Other,
    Other,
    Other,
    Other,
    Other,
    Other,
    Other,
    Other,
    Other,
    Other,
    Other,
    Other,
    Other,
    Other,
    Other,
    Other,
    Other,
    Other,
    Other,
    Other,
    Other,
    Other,
    Other,
    Other,
    Other,
    Other,
    Other,
    Other,
    Other,
    Other,
    Other,
    Other,
    Other,
    Other,
    Other,
    Other,
    Other,
    Other,
    Other,
    Other,
    Other,
    Other,
    Other,
    Other,
    Other,
    Other,
    Other,
    Other,
    Other,
    Other,
    Other,
    Other,
    Other,
    Other,
    Other,
    Other,
    Other,
    Other,
    Other,
    Other,
    Other,
    Other,
    Other,
    Other,
    Other,
    Other,
    Other,
    Other,
    Other,
    Other,
    Other,
    Other,
    Other,
    Other,
    Other,
    Other,
    Other,
    Other,
    Other,
    Other,
    Other,
    Other,
    Other,
    Other,
    Other,
    Other,
    Other,
    Other,
    Other,
    Other,
    Other,
    Other,
    Other,
    Other,
    Other,
    Other,
    Other,
    Other,
    Other,
    Other,
    Other,
    Other,
    Other,
    Other,
    Other,
    Other,
    Other,
    Other,
    Other,
    Other,
];
