// What the tests share.
use crate::asker::Asker;
use crate::counter::Counter;
use explorer::refusal::Refusal;
use explorer::report::Report;
use explorer::verdict::Verdict;
use machine::machine::Machine;
use store::row_store::RowStore;
use store::store::Store;

// An asker of number 1 that has begun.
pub(crate) fn ask<M: Machine, S: Store>(machine: &M, store: &mut S) -> Result<Asker, Refusal> {
    let mut asker = Asker::new(1);
    asker.begin(machine, store)?;
    Ok(asker)
}

// The number of the refusal, or 0 where the call was accepted.
pub(crate) fn refused<T: Drop>(answer: Result<T, Refusal>) -> u8 {
    answer.err().map_or(0, Refusal::number)
}

// What a report says, in the order of docs/explorer.md: verdict, depth, entries expanded, entries kept. As a tuple, so
// that what a test expects is one line.
pub(crate) fn told(report: Report) -> (Verdict, u16, u16, u16) {
    (report.verdict, report.depth, report.expanded, report.kept)
}

// A question in a store of so many rows, 10 at most, with one grant: what advance tells, and the report after it.
pub(crate) fn ask_once(
    machine: Counter,
    rows: usize,
    grant: u16,
) -> Result<((u16, Verdict), (Verdict, u16, u16, u16)), Refusal> {
    let mut bytes = [0u8; 50];
    ask_in(machine, &mut bytes[0..rows.min(10) * 5], grant)
}

// The same, in a store of width 1 in these bytes.
pub(crate) fn ask_in(
    machine: Counter,
    bytes: &mut [u8],
    grant: u16,
) -> Result<((u16, Verdict), (Verdict, u16, u16, u16)), Refusal> {
    let mut store = RowStore::new(1, bytes);
    let mut asker = ask(&machine, &mut store)?;
    let advanced = asker.advance(None, &machine, &mut store, grant)?;
    let report = asker.verdict(None, &machine, &store)?;
    Ok((advanced, told(report)))
}

// A counter by ones, up to 9. Its lines are 0, 1, 2, .., entry p holds p, and the note of entry p + 1 is 256 * p.
pub(crate) fn by_ones(goal: u8) -> Counter {
    Counter::new(9, goal, 1, true)
}

// Puts other entries, each of one byte and a note, in place of all that the store holds.
pub(crate) fn refill<S: Store>(store: &mut S, entries: &[(u8, u32)]) {
    store.clear();
    for &(value, note) in entries {
        let _ = store.add(&[value], note);
    }
}
