// A store that someone else has changed: 25 by its size, 26 by its notes.
use crate::desk::Call::*;
use crate::desk::Heard::*;
use crate::desk::{Act, run};
use crate::helpers::{ask, by_ones, refill, refused};
use explorer::refusal::Refusal;
use explorer::verdict::Verdict;
use std::test::Fail;
use store::row_store::RowStore;

// The goal is reached at depth 1 with two entries; the third is not the explorer's. verdict and abandon do not look
// at the store.
#[test]
fn an_entry_too_many(rt: HostRuntime) {
    let heard = run(
        by_ones(1),
        3,
        [
            Own(Act::Begin),
            Own(Act::Advance(9)),
            Add(7),
            Own(Act::Advance(1)),
            Own(Act::Trace(4)),
            Own(Act::Settle),
            Own(Act::Verdict),
            Own(Act::Abandon),
        ],
    );
    assert_eq!(rt;
        heard,
        [
            Began,
            Advanced(1, Verdict::Reached),
            Done,
            Refused(25),
            Refused(25),
            Refused(25),
            Told(Verdict::Reached, 1, 1, 2),
            Abandoned,
        ]
    );
}

#[test]
fn an_entry_too_few(rt: HostRuntime) {
    let heard = run(
        by_ones(0),
        3,
        [
            Own(Act::Begin),
            Clear,
            Own(Act::Advance(1)),
            Own(Act::Trace(4)),
            Own(Act::Settle),
        ],
    );
    assert_eq!(rt; heard, [Began, Done, Refused(25), Refused(25), Refused(25)]);
}

// A refusal changes nothing: with its own two entries back in the store, both of note 0, the question goes on.
#[test]
fn put_right_again(rt: HostRuntime) {
    let heard = run(
        by_ones(9),
        3,
        [
            Own(Act::Begin),
            Own(Act::Advance(1)),
            Add(7),
            Own(Act::Advance(1)),
            Clear,
            Add(0),
            Add(1),
            Own(Act::Advance(1)),
            Size,
        ],
    );
    assert_eq!(rt;
        heard,
        [
            Began,
            Advanced(1, Verdict::Open),
            Done,
            Refused(25),
            Done,
            Done,
            Done,
            Advanced(1, Verdict::Open),
            Holds(3),
        ]
    );
}

// The trace of a question that reached 2 at depth 2 in entry 2, after its notes were changed to these.
fn trace_by(notes: [u32; 3], area: &mut [u8]) -> Result<u16, Refusal> {
    let machine = by_ones(2);
    let mut bytes = [0u8; 15];
    let mut store = RowStore::new(1, &mut bytes);
    let mut asker = ask(&machine, &mut store)?;
    asker.advance(None, &machine, &mut store, 9)?;
    refill(&mut store, &[(0, notes[0]), (1, notes[1]), (2, notes[2])]);
    asker.trace(None, &machine, &store, area)
}

// The notes that the question itself wrote: 256 * 1 + 0 leads from entry 2 to entry 1, and 0 from there to entry 0.
#[test]
fn its_own_notes(rt: HostRuntime) -> Result<(), Fail> {
    let mut area = [9u8; 3];
    let depth = trace_by([0, 0, 256], &mut area)?;
    assert_eq!(rt; (depth, area), (2, [0, 0, 9]));
    Ok(())
}

// Notes that lead back in two steps are followed, whatever step numbers they tell: 5 and then 7.
#[test]
fn other_step_numbers(rt: HostRuntime) -> Result<(), Fail> {
    let mut area = [9u8; 3];
    let depth = trace_by([0, 5, 256 + 7], &mut area)?;
    assert_eq!(rt; (depth, area), (2, [5, 7, 9]));
    Ok(())
}

// Entry 2 leads to entry 0 at once, one step too soon.
#[test]
fn entry_0_too_soon(rt: HostRuntime) {
    let mut area = [9u8; 3];
    let answer = refused(trace_by([0, 0, 0], &mut area));
    assert_eq!(rt; (answer, area), (26, [9, 9, 9]));
}

// Entry 2 leads to itself, and after two steps it is not entry 0 that is met.
#[test]
fn entry_0_not_met(rt: HostRuntime) {
    assert_eq!(rt; refused(trace_by([0, 0, 512], &mut [9u8; 3])), 26);
}

// Entry 2 leads to place 3, and there are only entries 0 to 2.
#[test]
fn a_place_outside_the_store(rt: HostRuntime) {
    assert_eq!(rt; refused(trace_by([0, 0, 768], &mut [9u8; 3])), 26);
}

// An area of one byte is too short for depth 2: 26 leads over 27, which is told where the notes lead back.
#[test]
fn other_notes_lead_over_a_short_area(rt: HostRuntime) {
    let bad = refused(trace_by([0, 0, 0], &mut [9u8; 1]));
    let good = refused(trace_by([0, 0, 256], &mut [9u8; 1]));
    assert_eq!(rt; (bad, good), (26, 27));
}
