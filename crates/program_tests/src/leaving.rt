// Return, resume and yield at lines of the sampler; place + 1 is 15 for return *, 16 for return 0, 5 for the yield, 7 for
// call l := p g0 and 11 for call g0 := p *.
use crate::helpers::{at, lists, sampled};
use program::kind::Kind;
use std::test::Fail;

#[test]
fn returns(rt: HostRuntime) -> Result<(), Fail> {
    let m = sampled(rt.alloc())?;
    // into the caller's l
    lists(
        &rt,
        &m,
        at(1, &[7, 0, 0, 15, 1, 0], &[]),
        false,
        [
            (Kind::Return, 0, at(1, &[6, 0, 0], &[])),
            (Kind::Return, 0, at(1, &[6, 1, 0], &[])),
            (Kind::Return, 0, at(1, &[6, 2, 0], &[])),
        ],
    )?;
    // into the global
    lists(
        &rt,
        &m,
        at(2, &[11, 2, 1, 15, 1, 1], &[]),
        false,
        [
            (Kind::Return, 0, at(0, &[13, 2, 1], &[])),
            (Kind::Return, 0, at(1, &[13, 2, 1], &[])),
            (Kind::Return, 0, at(2, &[13, 2, 1], &[])),
        ],
    )?;
    lists(
        &rt,
        &m,
        at(2, &[11, 2, 0, 16, 1, 0], &[]),
        false,
        [(Kind::Return, 0, at(0, &[13, 2, 0], &[]))],
    )
}

// One step, also where the expression is `*`: its value is not used. A frame below that stands at a call of a lower
// level does not move.
#[test]
fn resumes(rt: HostRuntime) -> Result<(), Fail> {
    let m = sampled(rt.alloc())?;
    lists(
        &rt,
        &m,
        at(1, &[15, 1, 0], &[]),
        false,
        [(Kind::Resume, 0, at(1, &[], &[]))],
    )?;
    lists(
        &rt,
        &m,
        at(1, &[7, 0, 0, 15, 1, 1], &[1, 0, 1]),
        false,
        [(Kind::Resume, 0, at(1, &[7, 0, 0], &[1, 0, 1]))],
    )
}

// The frame moves on first, and then all frames of its level leave together.
#[test]
fn yields(rt: HostRuntime) -> Result<(), Fail> {
    let m = sampled(rt.alloc())?;
    lists(
        &rt,
        &m,
        at(0, &[5, 1, 0], &[]),
        false,
        [(Kind::Yield, 0, at(0, &[], &[6, 1, 0]))],
    )?;
    let old = [1, 0, 0, 0, 0, 0, 0, 0, 0, 19, 0, 0];
    let new = [
        1, 0, 0, 0, 0, 0, 0, 0, 0, 7, 2, 1, 6, 1, 1, 0, 0, 0, 19, 0, 0,
    ];
    lists(
        &rt,
        &m,
        at(0, &[18, 0, 0, 7, 2, 1, 5, 1, 1], &old),
        false,
        [(Kind::Yield, 0, at(0, &[18, 0, 0], &new))],
    )
}
