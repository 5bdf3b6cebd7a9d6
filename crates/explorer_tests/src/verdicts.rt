// Each verdict, with depth and tallies.
use crate::counter::Counter;
use crate::helpers::ask_once;
use explorer::verdict::Verdict;

// The start line is a goal, so begin itself reaches it: depth 0, nothing expanded, one entry kept.
#[test]
fn reached_at_the_start(rt: HostRuntime) {
    let answer = ask_once(Counter::new(9, 0, 2, true), 10, 0);
    assert_eq!(rt;
        answer,
        Ok(((0, Verdict::Reached), (Verdict::Reached, 0, 0, 1)))
    );
}

// Steps add 1 or 2. 0 gives 1 and 2 (depth 1), 1 gives 3 (depth 2), 2 gives 4, and 3 gives 5, the goal, at
// depth 3: four entries are expanded, six kept.
#[test]
fn reached_deeper(rt: HostRuntime) {
    let answer = ask_once(Counter::new(9, 5, 2, true), 10, 100);
    assert_eq!(rt;
        answer,
        Ok(((4, Verdict::Reached), (Verdict::Reached, 3, 4, 6)))
    );
}

// The first next line of 0 is the goal. That ends the expansion, so that the second next line is not kept.
#[test]
fn reached_ends_the_expansion(rt: HostRuntime) {
    let answer = ask_once(Counter::new(9, 1, 2, true), 10, 100);
    assert_eq!(rt;
        answer,
        Ok(((1, Verdict::Reached), (Verdict::Reached, 1, 1, 2)))
    );
}

// Of the three steps at 0 the last is left off, so that 0 is tight; its second leads to the goal all the same.
#[test]
fn reached_past_a_tight_line(rt: HostRuntime) {
    let answer = ask_once(Counter::new(2, 2, 3, true), 10, 100);
    assert_eq!(rt;
        answer,
        Ok(((1, Verdict::Reached), (Verdict::Reached, 1, 1, 3)))
    );
}

// The goal takes the last of three rows.
#[test]
fn reached_in_the_last_row(rt: HostRuntime) {
    let answer = ask_once(Counter::new(9, 2, 1, true), 3, 100);
    assert_eq!(rt;
        answer,
        Ok(((2, Verdict::Reached), (Verdict::Reached, 2, 2, 3)))
    );
}

// 0, 1, 2 and 3 are all there is, none of them 9; no limit is strict, so that none is tight.
#[test]
fn none(rt: HostRuntime) {
    let answer = ask_once(Counter::new(3, 9, 1, false), 10, 100);
    assert_eq!(rt; answer, Ok(((4, Verdict::None), (Verdict::None, 0, 4, 4))));
}

// With no step at all the start line is the only one, and nothing was left off.
#[test]
fn none_without_steps(rt: HostRuntime) {
    let answer = ask_once(Counter::new(3, 9, 0, true), 10, 100);
    assert_eq!(rt; answer, Ok(((1, Verdict::None), (Verdict::None, 0, 1, 1))));
}

// As none, but the limit is strict: at 3 the one step was left off, so that 3 is tight.
#[test]
fn cut(rt: HostRuntime) {
    let answer = ask_once(Counter::new(3, 9, 1, true), 10, 100);
    assert_eq!(rt; answer, Ok(((4, Verdict::Cut), (Verdict::Cut, 0, 4, 4))));
}

// Three rows hold 0, 1 and 2; expanding 2 meets 3, for which there is no row. That expansion counts.
#[test]
fn full(rt: HostRuntime) {
    let answer = ask_once(Counter::new(9, 9, 1, true), 3, 100);
    assert_eq!(rt; answer, Ok(((3, Verdict::Full), (Verdict::Full, 0, 3, 3))));
}

// Three rows are enough where there are three lines: 2 has no step, so nothing is met that has no row.
#[test]
fn a_store_that_is_just_large_enough(rt: HostRuntime) {
    let answer = ask_once(Counter::new(2, 9, 1, false), 3, 100);
    assert_eq!(rt; answer, Ok(((3, Verdict::None), (Verdict::None, 0, 3, 3))));
}

// Two expansions, of 0 and 1, leave 2 kept and not expanded.
#[test]
fn open(rt: HostRuntime) {
    let answer = ask_once(Counter::new(9, 9, 1, true), 10, 2);
    assert_eq!(rt; answer, Ok(((2, Verdict::Open), (Verdict::Open, 0, 2, 3))));
}

// After begin alone: one entry kept, none expanded.
#[test]
fn open_at_first(rt: HostRuntime) {
    let answer = ask_once(Counter::new(9, 9, 1, true), 10, 0);
    assert_eq!(rt; answer, Ok(((0, Verdict::Open), (Verdict::Open, 0, 0, 1))));
}

// The words by which verdicts are printed.
#[test]
fn words(rt: HostRuntime) {
    assert_eq!(rt; Verdict::Open.word(), "open");
    assert_eq!(rt; Verdict::Reached.word(), "reached");
    assert_eq!(rt; Verdict::None.word(), "none");
    assert_eq!(rt; Verdict::Cut.word(), "cut");
    assert_eq!(rt; Verdict::Full.word(), "full");
}
