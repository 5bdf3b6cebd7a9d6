// Which tasks are dispatched, and their delays, at lines of the sampler.
use crate::helpers::{at, lists, sampled};
use machine::machine::Machine;
use program::kind::Kind;
use std::test::Fail;

// Each main is pending with l = 0 at level 0.
#[test]
fn the_start(rt: HostRuntime) -> Result<(), Fail> {
    let m = sampled(rt.alloc())?;
    let mut start = [77u8; 158];
    m.start(&mut start)?;
    assert_eq!(rt; start, at(0, &[], &[17, 0, 0]));
    lists(
        &rt,
        &m,
        start,
        false,
        [(Kind::Dispatch, 0, at(0, &[17, 0, 0], &[]))],
    )?;
    // with no frame and no task nothing is left to do
    lists(&rt, &m, at(0, &[], &[]), false, [])
}

#[test]
fn delays(rt: HostRuntime) -> Result<(), Fail> {
    let m = sampled(rt.alloc())?;
    lists(
        &rt,
        &m,
        at(0, &[], &[1, 1, 0, 0, 0, 0, 0, 0, 0, 1, 2, 0]),
        false,
        [
            (Kind::Dispatch, 0, at(0, &[1, 1, 0], &[1, 2, 0])),
            (Kind::Dispatch, 1, at(0, &[1, 2, 0], &[1, 1, 0])),
        ],
    )?;
    // equal tasks have one dispatch between them
    lists(
        &rt,
        &m,
        at(0, &[], &[1, 1, 0, 0, 0, 0, 0, 0, 0, 1, 1, 0]),
        false,
        [(Kind::Dispatch, 0, at(0, &[1, 1, 0], &[1, 1, 0]))],
    )
}

// Only tasks of the highest level are dispatched, over a frame of a lower level too; those of other levels do not count
// for the delay.
#[test]
fn levels(rt: HostRuntime) -> Result<(), Fail> {
    let m = sampled(rt.alloc())?;
    let tasks = [
        1, 0, 1, 0, 0, 0, 0, 0, 0, 1, 1, 0, 0, 0, 0, 0, 0, 0, 2, 0, 1,
    ];
    lists(
        &rt,
        &m,
        at(0, &[18, 0, 0], &tasks),
        false,
        [
            (
                Kind::Dispatch,
                0,
                at(
                    0,
                    &[18, 0, 0, 1, 0, 1],
                    &[1, 1, 0, 0, 0, 0, 0, 0, 0, 2, 0, 1],
                ),
            ),
            (
                Kind::Dispatch,
                1,
                at(
                    0,
                    &[18, 0, 0, 2, 0, 1],
                    &[1, 0, 1, 0, 0, 0, 0, 0, 0, 1, 1, 0],
                ),
            ),
        ],
    )
}

// The frames of a task keep their order.
#[test]
fn two_frames(rt: HostRuntime) -> Result<(), Fail> {
    let m = sampled(rt.alloc())?;
    lists(
        &rt,
        &m,
        at(0, &[18, 0, 0], &[7, 2, 1, 6, 1, 1]),
        false,
        [(Kind::Dispatch, 0, at(0, &[18, 0, 0, 7, 2, 1, 6, 1, 1], &[]))],
    )
}
