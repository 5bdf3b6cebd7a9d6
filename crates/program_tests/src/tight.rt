// Steps past the space of a line are left off, and make it tight.
use crate::helpers::{at, line, lists, sampled};
use known::puts::puts;
use known::recursive::recursive;
use program::kind::Kind;
use std::test::Fail;
use steps::program_machine::ProgramMachine;

// Main's call and seven of the procedure's fill the stack.
#[test]
fn a_ninth_frame(rt: HostRuntime) -> Result<(), Fail> {
    let m = ProgramMachine::new(recursive(rt.alloc())?);
    let eight = [
        3, 0, 0, 1, 0, 0, 1, 0, 0, 1, 0, 0, 1, 0, 0, 1, 0, 0, 1, 0, 0, 1, 0, 0,
    ];
    lists(
        &rt,
        &m,
        line(0, &eight[0..21], &[]),
        false,
        [(Kind::Call, 0, line(0, &eight, &[]))],
    )?;
    lists(&rt, &m, line(0, &eight, &[]), true, [])
}

// Five tasks leave room for one more, six for none.
#[test]
fn a_seventh_task(rt: HostRuntime) -> Result<(), Fail> {
    let m = ProgramMachine::new(puts(rt.alloc())?);
    let six = [
        1, 1, 0, 0, 0, 0, 0, 0, 0, 1, 1, 0, 0, 0, 0, 0, 0, 0, 1, 1, 0, 0, 0, 0, 0, 0, 0, 1, 1, 0,
        0, 0, 0, 0, 0, 0, 1, 1, 0, 0, 0, 0, 0, 0, 0, 1, 1, 0,
    ];
    lists(
        &rt,
        &m,
        line(0, &[3, 0, 0], &six[0..45]),
        false,
        [(Kind::Post, 0, line(0, &[4, 0, 0], &six))],
    )?;
    lists(&rt, &m, line(0, &[3, 0, 0], &six), true, [])
}

// Three frames may yield, four may not.
#[test]
fn a_yield_of_four_frames(rt: HostRuntime) -> Result<(), Fail> {
    let m = sampled(rt.alloc())?;
    lists(
        &rt,
        &m,
        at(0, &[7, 0, 0, 7, 0, 0, 5, 1, 0], &[]),
        false,
        [(Kind::Yield, 0, at(0, &[], &[7, 0, 0, 7, 0, 0, 6, 1, 0]))],
    )?;
    lists(
        &rt,
        &m,
        at(0, &[7, 0, 0, 7, 0, 0, 7, 0, 0, 5, 1, 0], &[]),
        true,
        [],
    )
}

// Over seven frames a task of two does not fit and a task of one does. The first is not listed, so that the second,
// which comes behind it, has number and delay 0.
#[test]
fn one_of_two_dispatches(rt: HostRuntime) -> Result<(), Fail> {
    let m = sampled(rt.alloc())?;
    let eight = [
        7, 0, 0, 7, 0, 0, 7, 0, 0, 7, 0, 0, 7, 0, 0, 7, 0, 0, 1, 0, 0, 8, 0, 1,
    ];
    lists(
        &rt,
        &m,
        at(0, &eight[0..21], &[7, 0, 1, 1, 0, 1, 0, 0, 0, 8, 0, 1]),
        true,
        [(Kind::Dispatch, 0, at(0, &eight, &[7, 0, 1, 1, 0, 1]))],
    )
}
