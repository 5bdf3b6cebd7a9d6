// The steps of each statement but return and yield, at lines of the sampler. Its places from 0 on: skip, assume, if *,
// g0 := *, yield, while *, call l := p g0, zield, post 1 p *, if g0, call g0 := p *, l := g0 - 1, while l < g0, skip,
// return *, return 0; then main 0 with post 0 p 1 and return 0, and main 1 with return 0. A frame has place + 1.
use crate::helpers::{at, line_of_two, lists, sampled};
use program::kind::Kind;
use std::test::Fail;

#[test]
fn skip_and_assume(rt: HostRuntime) -> Result<(), Fail> {
    let m = sampled(rt.alloc())?;
    lists(
        &rt,
        &m,
        at(0, &[1, 1, 0], &[]),
        false,
        [(Kind::Skip, 0, at(0, &[2, 1, 0], &[]))],
    )?;
    lists(
        &rt,
        &m,
        at(0, &[2, 1, 0], &[]),
        false,
        [(Kind::Assume, 0, at(0, &[3, 1, 0], &[]))],
    )?;
    // l is not 1; a pending task of the same level does not run before the frame is gone
    lists(&rt, &m, at(0, &[2, 2, 0], &[1, 0, 0]), false, [])
}

#[test]
fn tests(rt: HostRuntime) -> Result<(), Fail> {
    let m = sampled(rt.alloc())?;
    lists(
        &rt,
        &m,
        at(0, &[3, 1, 0], &[]),
        false,
        [
            (Kind::Then, 0, at(0, &[4, 1, 0], &[])),
            (Kind::Else, 0, at(0, &[5, 1, 0], &[])),
        ],
    )?;
    lists(
        &rt,
        &m,
        at(2, &[10, 1, 0], &[]),
        false,
        [(Kind::Then, 0, at(2, &[11, 1, 0], &[]))],
    )?;
    lists(
        &rt,
        &m,
        at(0, &[10, 1, 0], &[]),
        false,
        [(Kind::Else, 0, at(0, &[12, 1, 0], &[]))],
    )?;
    lists(
        &rt,
        &m,
        at(0, &[6, 1, 0], &[]),
        false,
        [
            (Kind::Do, 0, at(0, &[7, 1, 0], &[])),
            (Kind::End, 0, at(0, &[8, 1, 0], &[])),
        ],
    )?;
    lists(
        &rt,
        &m,
        at(2, &[13, 1, 0], &[]),
        false,
        [(Kind::Do, 0, at(2, &[14, 1, 0], &[]))],
    )?;
    lists(
        &rt,
        &m,
        at(1, &[13, 1, 0], &[]),
        false,
        [(Kind::End, 0, at(1, &[15, 1, 0], &[]))],
    )
}

// A difference is taken modulo the three values: 0 - 1 is 2.
#[test]
fn assignments(rt: HostRuntime) -> Result<(), Fail> {
    let m = sampled(rt.alloc())?;
    lists(
        &rt,
        &m,
        at(1, &[4, 1, 0], &[]),
        false,
        [
            (Kind::Assign, 0, at(0, &[6, 1, 0], &[])),
            (Kind::Assign, 0, at(1, &[6, 1, 0], &[])),
            (Kind::Assign, 0, at(2, &[6, 1, 0], &[])),
        ],
    )?;
    lists(
        &rt,
        &m,
        at(0, &[12, 1, 0], &[]),
        false,
        [(Kind::Assign, 0, at(0, &[13, 2, 0], &[]))],
    )?;
    lists(
        &rt,
        &m,
        at(2, &[12, 0, 0], &[]),
        false,
        [(Kind::Assign, 0, at(2, &[13, 1, 0], &[]))],
    )
}

// The caller stays at its call, and the new frame has its level.
#[test]
fn calls(rt: HostRuntime) -> Result<(), Fail> {
    let m = sampled(rt.alloc())?;
    lists(
        &rt,
        &m,
        at(2, &[7, 1, 0], &[]),
        false,
        [(Kind::Call, 0, at(2, &[7, 1, 0, 1, 2, 0], &[]))],
    )?;
    lists(
        &rt,
        &m,
        at(1, &[11, 1, 1], &[]),
        false,
        [
            (Kind::Call, 0, at(1, &[11, 1, 1, 1, 0, 1], &[])),
            (Kind::Call, 0, at(1, &[11, 1, 1, 1, 1, 1], &[])),
            (Kind::Call, 0, at(1, &[11, 1, 1, 1, 2, 1], &[])),
        ],
    )
}

// The new task stands where its nine bytes put it.
#[test]
fn posts(rt: HostRuntime) -> Result<(), Fail> {
    let m = sampled(rt.alloc())?;
    let old = [1, 1, 0, 0, 0, 0, 0, 0, 0, 19, 0, 0];
    let before = [
        1, 0, 1, 0, 0, 0, 0, 0, 0, 1, 1, 0, 0, 0, 0, 0, 0, 0, 19, 0, 0,
    ];
    let behind = [
        1, 1, 0, 0, 0, 0, 0, 0, 0, 1, 1, 1, 0, 0, 0, 0, 0, 0, 19, 0, 0,
    ];
    let larger = [
        1, 1, 0, 0, 0, 0, 0, 0, 0, 1, 2, 1, 0, 0, 0, 0, 0, 0, 19, 0, 0,
    ];
    lists(
        &rt,
        &m,
        at(0, &[9, 1, 0], &old),
        false,
        [
            (Kind::Post, 0, at(0, &[10, 1, 0], &before)),
            (Kind::Post, 0, at(0, &[10, 1, 0], &behind)),
            (Kind::Post, 0, at(0, &[10, 1, 0], &larger)),
        ],
    )
}

// Each buffer may become active, the one that is active too; the frame that moves on is in the buffer that was.
#[test]
fn zields(rt: HostRuntime) -> Result<(), Fail> {
    let m = sampled(rt.alloc())?;
    let main: (&[u8], &[u8]) = (&[], &[19, 0, 0]);
    let moved: (&[u8], &[u8]) = (&[9, 1, 0], &[]);
    lists(
        &rt,
        &m,
        at(0, &[8, 1, 0], &[]),
        false,
        [
            (Kind::Zield, 0, line_of_two(0, 0, moved, main)),
            (Kind::Zield, 0, line_of_two(1, 0, moved, main)),
        ],
    )?;
    lists(
        &rt,
        &m,
        line_of_two(1, 0, main, (&[8, 1, 0], &[])),
        false,
        [
            (Kind::Zield, 0, line_of_two(0, 0, main, moved)),
            (Kind::Zield, 0, line_of_two(1, 0, main, moved)),
        ],
    )
}
