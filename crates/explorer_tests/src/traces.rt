// The step numbers of a run to the goal. Steps add 1 or 2, and the goal 5 is reached in three: 0 gives 1 by step 0,
// 1 gives 3 by step 1 (2 is kept already), and 3 gives 5 by step 1 (4 is kept already).
use crate::counter::Counter;
use crate::helpers::{ask, by_ones, refused};
use explorer::refusal::Refusal;
use machine::machine::Machine;
use machine::refusal::Refusal as NoStep;
use std::test::Fail;
use store::row_store::RowStore;

// The trace of a whole question.
fn trace(machine: Counter, area: &mut [u8]) -> Result<u16, Refusal> {
    let mut bytes = [0u8; 30];
    let mut store = RowStore::new(1, &mut bytes);
    let mut asker = ask(&machine, &mut store)?;
    asker.advance(None, &machine, &mut store, 100)?;
    asker.trace(None, &machine, &store, area)
}

// Bytes behind the trace stay as they were.
#[test]
fn step_numbers(rt: HostRuntime) -> Result<(), Fail> {
    let mut area = [9u8; 5];
    let depth = trace(Counter::new(9, 5, 2, true), &mut area)?;
    assert_eq!(rt; (depth, area), (3, [0, 1, 1, 9, 9]));
    Ok(())
}

#[test]
fn an_area_that_just_fits(rt: HostRuntime) -> Result<(), Fail> {
    let mut area = [9u8; 3];
    let depth = trace(Counter::new(9, 5, 2, true), &mut area)?;
    assert_eq!(rt; (depth, area), (3, [0, 1, 1]));
    Ok(())
}

// Nothing is written into an area that is too short.
#[test]
fn a_short_area(rt: HostRuntime) {
    let mut area = [9u8; 2];
    let answer = refused(trace(Counter::new(9, 5, 2, true), &mut area));
    assert_eq!(rt; (answer, area), (27, [9, 9]));
}

// A goal at the start needs no step, and no area.
#[test]
fn no_step(rt: HostRuntime) -> Result<(), Fail> {
    assert_eq!(rt; trace(by_ones(0), &mut [])?, 0);
    Ok(())
}

// Among the steps at one line the trace has the one that first led to the next: 2 is the second of three steps at 0.
#[test]
fn the_second_of_three_steps(rt: HostRuntime) -> Result<(), Fail> {
    let mut area = [9u8; 1];
    let depth = trace(Counter::new(9, 2, 3, true), &mut area)?;
    assert_eq!(rt; (depth, area), (1, [1]));
    Ok(())
}

// The line after one step.
fn after(machine: Counter, line: [u8; 1], number: u8) -> Result<[u8; 1], NoStep> {
    let mut next = [0u8; 1];
    machine.step(&line, number, &mut next)?;
    Ok(next)
}

// Taking the steps of a trace from the start line on, by the machine's own calls, ends in a goal line.
#[test]
fn leads_to_the_goal(rt: HostRuntime) -> Result<(), Fail> {
    let machine = Counter::new(9, 5, 2, true);
    let mut steps = [0u8; 3];
    trace(machine, &mut steps)?;
    let mut line = [9u8; 1];
    machine.start(&mut line)?;
    for number in steps {
        line = after(machine, line, number)?;
    }
    assert_eq!(rt; (line, machine.goal(&line)?), ([5], true));
    Ok(())
}
