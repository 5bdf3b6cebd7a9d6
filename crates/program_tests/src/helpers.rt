// What the tests share: lines made from their parts, and the calls at a line compared with what the rules say.
use known::error::KnownError;
use known::sampler::sampler;
use machine::machine::Machine;
use machine::refusal::Refusal;
use program::kind::Kind;
use std::alloc::Global;
use std::process::Abort;
use std::test::Fail;
use steps::program_machine::ProgramMachine;

// A step as it is expected: kind, delay, and the next line.
pub(crate) type Listed<const W: usize> = (Kind, u8, [u8; W]);

// Copies the bytes into the area, from that place on.
fn put(out: &mut [u8], at: usize, bytes: &[u8]) {
    for (place, byte) in out.iter_mut().skip(at).zip(bytes.iter()) {
        *place = *byte;
    }
}

// A line of a program with one buffer and one global. Frames are written as place + 1, l and level, bottom first, and
// each task but the last with its three frames.
pub(crate) fn line(global: u8, stack: &[u8], tasks: &[u8]) -> [u8; 80] {
    let mut out = [0u8; 80];
    put(&mut out, 1, &[global]);
    put(&mut out, 2, stack);
    put(&mut out, 26, tasks);
    out
}

// The same with two buffers, each by its stack and its tasks.
pub(crate) fn line_of_two(
    active: u8,
    global: u8,
    first: (&[u8], &[u8]),
    second: (&[u8], &[u8]),
) -> [u8; 158] {
    let mut out = [0u8; 158];
    put(&mut out, 0, &[active, global]);
    put(&mut out, 2, first.0);
    put(&mut out, 26, first.1);
    put(&mut out, 80, second.0);
    put(&mut out, 104, second.1);
    out
}

// A line of the sampler whose second buffer is as at the start.
pub(crate) fn at(global: u8, stack: &[u8], tasks: &[u8]) -> [u8; 158] {
    line_of_two(0, global, (stack, tasks), (&[], &[19, 0, 0]))
}

// The machine of the sampler.
pub(crate) fn sampled(heap: Global) -> Result<ProgramMachine, KnownError> {
    Ok(ProgramMachine::new(sampler(heap)?))
}

// The number of the refusal, or 0 where the call was accepted.
pub(crate) fn refused<T: Drop>(answer: Result<T, Refusal>) -> u8 {
    answer.err().map_or(0, Refusal::number)
}

// The two have the same bytes.
pub(crate) fn same(rt: &impl Abort, a: &[u8], b: &[u8]) {
    assert_eq!(rt; a, b);
}

// The line has exactly these steps, and is tight or not. The first number past them is refused, and nothing is written.
pub(crate) fn lists<const W: usize, const N: usize>(
    rt: &impl Abort,
    machine: &ProgramMachine,
    line: [u8; W],
    tight: bool,
    steps: [Listed<W>; N],
) -> Result<(), Fail> {
    let count = machine.count(&line)?;
    assert_eq!(rt; usize::from(count), N);
    assert_eq!(rt; machine.tight(&line)?, tight);
    for (number, (kind, delay, next)) in (0..count).zip(steps.iter()) {
        let mut out = [0u8; W];
        assert_eq!(rt;
            machine.step(&line, number, &mut out)?,
            (kind.number(), *delay)
        );
        same(rt, &out, next);
    }
    let mut out = [77u8; W];
    assert_eq!(rt; refused(machine.step(&line, count, &mut out)), 11);
    same(rt, &out, &[77u8; W]);
    Ok(())
}
