// Lines that encode no lawful configuration have no steps and neither fact; lines of another length are refused.
use crate::helpers::{at, line_of_two, lists, refused, sampled};
use machine::machine::Machine;
use std::process::Abort;
use std::test::Fail;
use steps::program_machine::ProgramMachine;

// No steps, no goal, not tight.
fn means_nothing(rt: &impl Abort, machine: &ProgramMachine, line: [u8; 158]) -> Result<(), Fail> {
    assert_eq!(rt; machine.goal(&line)?, false);
    lists(rt, machine, line, false, [])
}

// The global is 2 in all lines, as the goal asks.
#[test]
fn the_goal_of_lawful_lines(rt: HostRuntime) -> Result<(), Fail> {
    let m = sampled(rt.alloc())?;
    assert_eq!(rt; m.goal(&at(2, &[18, 0, 0, 1, 0, 1], &[1, 0, 0]))?, true);
    assert_eq!(rt; m.goal(&at(1, &[18, 0, 0, 1, 0, 1], &[1, 0, 0]))?, false);
    Ok(())
}

#[test]
fn frames(rt: HostRuntime) -> Result<(), Fail> {
    let m = sampled(rt.alloc())?;
    // a level that falls up the stack, also under a frame at a call
    means_nothing(&rt, &m, at(2, &[18, 0, 1, 1, 0, 0], &[]))?;
    means_nothing(&rt, &m, at(2, &[7, 0, 1, 1, 0, 0], &[]))?;
    // a frame under an equal one that is not at a call
    means_nothing(&rt, &m, at(2, &[1, 0, 0, 1, 0, 0], &[]))?;
    // a gap, and bytes behind an unused frame
    means_nothing(&rt, &m, at(2, &[0, 0, 0, 1, 0, 0], &[]))?;
    means_nothing(&rt, &m, at(2, &[1, 0, 0, 0, 1, 0], &[]))?;
    means_nothing(&rt, &m, at(2, &[1, 0, 0, 0, 0, 1], &[]))
}

#[test]
fn tasks(rt: HostRuntime) -> Result<(), Fail> {
    let m = sampled(rt.alloc())?;
    // out of order
    means_nothing(&rt, &m, at(2, &[], &[1, 1, 0, 0, 0, 0, 0, 0, 0, 1, 0, 0]))?;
    // an unused one before a used one
    means_nothing(&rt, &m, at(2, &[], &[0, 0, 0, 0, 0, 0, 0, 0, 0, 1, 0, 0]))?;
    // a frame under another that is not at a call, and two levels
    means_nothing(&rt, &m, at(2, &[], &[1, 0, 0, 1, 0, 0]))?;
    means_nothing(&rt, &m, at(2, &[], &[7, 0, 0, 1, 0, 1]))?;
    // a gap, and a byte in an unused frame
    means_nothing(&rt, &m, at(2, &[], &[7, 0, 0, 0, 0, 0, 1, 0, 0]))?;
    means_nothing(&rt, &m, at(2, &[], &[1, 0, 0, 0, 1, 0]))
}

// There are 3 values, 2 levels, 19 places and 2 buffers.
#[test]
fn bytes_out_of_range(rt: HostRuntime) -> Result<(), Fail> {
    let m = sampled(rt.alloc())?;
    means_nothing(&rt, &m, at(2, &[1, 3, 0], &[]))?;
    means_nothing(&rt, &m, at(2, &[1, 0, 2], &[]))?;
    means_nothing(&rt, &m, at(2, &[20, 0, 0], &[]))?;
    means_nothing(&rt, &m, at(2, &[], &[1, 3, 0]))?;
    means_nothing(&rt, &m, at(3, &[1, 0, 0], &[]))?;
    means_nothing(&rt, &m, line_of_two(2, 2, (&[1, 0, 0], &[]), (&[], &[])))?;
    // in the buffer that is not active
    means_nothing(
        &rt,
        &m,
        line_of_two(0, 2, (&[1, 0, 0], &[]), (&[1, 3, 0], &[])),
    )
}

// 10 is a wrong length, of the line or of the area.
#[test]
fn other_lengths(rt: HostRuntime) -> Result<(), Fail> {
    let m = sampled(rt.alloc())?;
    let line = at(2, &[1, 0, 0], &[]);
    let mut out = [0u8; 158];
    assert_eq!(rt; m.width(), 158);
    assert_eq!(rt; refused(m.start(&mut out[0..157])), 10);
    assert_eq!(rt; refused(m.count(&line[0..157])), 10);
    assert_eq!(rt; refused(m.goal(&line[0..157])), 10);
    assert_eq!(rt; refused(m.tight(&line[0..157])), 10);
    assert_eq!(rt; refused(m.step(&line[0..157], 0, &mut out)), 10);
    assert_eq!(rt; refused(m.step(&line, 0, &mut out[0..157])), 10);
    assert_eq!(rt; out, [0u8; 158]);
    Ok(())
}
