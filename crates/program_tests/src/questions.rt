// Whole questions about the known programs: verdict, depth, entries expanded and kept, and the trace, which leads to the
// goal when it is replayed. A row has 4 bytes more than a line.
use crate::helpers::same;
use bounds::bounded::bounded;
use bounds::stack::Stack;
use explorer::explorer::Explorer;
use explorer::verdict::Verdict;
use known::bumps::bumps;
use known::puts::puts;
use known::recursive::recursive;
use known::sampler::sampler;
use known::two_mains::two_mains;
use machine::machine::Machine;
use machine::replay::replay;
use question::ask::ask;
use rule::bound::Bound;
use rule::charge::KindSet;
use std::alloc::Global;
use std::process::Abort;
use std::test::Fail;
use steps::program_machine::ProgramMachine;
use store::row_store::RowStore;
use store::store::Store;

// Verdict, depth, entries expanded and entries kept, as a tuple, so that a test is one line.
type Told = (Verdict, u16, u16, u16);

// Asks in a store of that many bytes. The trace goes into the area.
fn told<M: Machine>(heap: Global, machine: &M, room: usize, area: &mut [u8]) -> Result<Told, Fail> {
    let mut bytes = vec![in heap; 0u8; room]?;
    let mut store = RowStore::new(machine.width(), &mut bytes);
    let mut explorer = Explorer::new(0);
    let report = ask(&mut explorer, machine, &mut store, area)?;
    Ok((report.verdict, report.depth, report.expanded, report.kept))
}

// Asks, compares, and follows the trace to the goal. W is the width of the machine.
fn reaches<M: Machine, const W: usize, const N: usize>(
    rt: &impl Abort,
    heap: Global,
    machine: &M,
    counts: Told,
    trace: [u8; N],
) -> Result<[u8; W], Fail> {
    let mut area = [77u8; N];
    assert_eq!(rt; told(heap, machine, 4000, &mut area)?, counts);
    same(rt, &area, &trace);
    let mut line = [0u8; W];
    let mut spare = [0u8; W];
    assert_eq!(rt; replay(machine, &trace, &mut line, &mut spare)?, true);
    Ok(line)
}

// Asks where the goal is not reached in so many bytes.
fn misses<M: Machine>(
    rt: &impl Abort,
    heap: Global,
    machine: &M,
    room: usize,
    counts: Told,
) -> Result<(), Fail> {
    assert_eq!(rt; told(heap, machine, room, &mut [])?, counts);
    Ok(())
}

fn bumps_to(heap: Global, goal: u8) -> Result<ProgramMachine, Fail> {
    Ok(ProgramMachine::new(bumps(heap, goal)?))
}

// The bump posted above main runs at once, so that the assume finds 1; every line has one step. Nine lines are met, one
// more than 672 bytes have rows of 84 bytes for.
#[test]
fn bumps_reached(rt: HostRuntime) -> Result<(), Fail> {
    let heap = rt.alloc();
    let m = bumps_to(heap, 3)?;
    let line: [u8; 80] = reaches(&rt, heap, &m, (Verdict::Reached, 8, 8, 9), [0; 8])?;
    assert_eq!(rt; line[1], 3);
    misses(&rt, heap, &m, 672, (Verdict::Full, 0, 8, 8))?;
    let start: [u8; 80] = reaches(
        &rt,
        heap,
        &bumps_to(heap, 0)?,
        (Verdict::Reached, 0, 0, 1),
        [],
    )?;
    assert_eq!(rt; start[1], 0);
    Ok(())
}

// g0 is 0, 1, 3, and at last 0 again.
#[test]
fn bumps_not_reached(rt: HostRuntime) -> Result<(), Fail> {
    let heap = rt.alloc();
    misses(
        &rt,
        heap,
        &bumps_to(heap, 2)?,
        4000,
        (Verdict::None, 0, 13, 13),
    )
}

// The task that puts 2 is the second of the two: it runs first by a delay of 1, or after the other.
#[test]
fn puts_reached(rt: HostRuntime) -> Result<(), Fail> {
    let heap = rt.alloc();
    let m = ProgramMachine::new(puts(heap)?);
    let line: [u8; 80] = reaches(
        &rt,
        heap,
        &m,
        (Verdict::Reached, 6, 7, 9),
        [0, 0, 0, 0, 1, 0],
    )?;
    assert_eq!(rt; line[1], 2);
    Ok(())
}

// With no delay allowed there is one run only. Its lines begin with what is left of the budget.
#[test]
fn puts_bounded(rt: HostRuntime) -> Result<(), Fail> {
    let heap = rt.alloc();
    let m = bounded(ProgramMachine::new(puts(heap)?), Bound::delay(0));
    let line: [u8; 81] = reaches(&rt, heap, &m, (Verdict::Reached, 9, 9, 10), [0; 9])?;
    assert_eq!(rt; (line[0], line[2]), (0, 2));
    Ok(())
}

// The same by a stack of bounds: no delay, and at most 3 dispatches (kind 11), which is just enough.
#[test]
fn puts_stacked(rt: HostRuntime) -> Result<(), Fail> {
    let heap = rt.alloc();
    let dispatches = Bound::kinds(KindSet::new(2048), 3);
    let Ok(m) = Stack::new(
        ProgramMachine::new(puts(heap)?),
        &[Bound::delay(0), dispatches],
    ) else {
        return Err(Fail::new("four bounds are not too many"));
    };
    let line: [u8; 82] = reaches(&rt, heap, &m, (Verdict::Reached, 9, 9, 10), [0; 9])?;
    assert_eq!(rt; (line[0], line[1], line[3]), (0, 0, 2));
    Ok(())
}

// Nothing makes the second buffer active; a procedure that calls itself fills the stack.
#[test]
fn none_and_cut(rt: HostRuntime) -> Result<(), Fail> {
    let heap = rt.alloc();
    let two = ProgramMachine::new(two_mains(heap)?);
    misses(&rt, heap, &two, 4000, (Verdict::None, 0, 3, 3))?;
    let deep = ProgramMachine::new(recursive(heap)?);
    misses(&rt, heap, &deep, 4000, (Verdict::Cut, 0, 9, 9))
}

// Main runs and ends, then the task: skip, assume, then, and 2 is the third value that is assigned.
#[test]
fn sampler_reached(rt: HostRuntime) -> Result<(), Fail> {
    let heap = rt.alloc();
    let m = ProgramMachine::new(sampler(heap)?);
    let line: [u8; 158] = reaches(
        &rt,
        heap,
        &m,
        (Verdict::Reached, 8, 8, 12),
        [0, 0, 0, 0, 0, 0, 0, 2],
    )?;
    assert_eq!(rt; line[1], 2);
    Ok(())
}
