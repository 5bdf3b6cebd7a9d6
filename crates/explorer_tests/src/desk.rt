// Calls as data: a script of them is made at a desk, one after the other, and what each tells is compared with what
// the rules say. So a test is one line of calls and one of answers.
use crate::asker::Asker;
use crate::counter::Counter;
use crate::too_wide::TooWide;
use clip::clip_watch::ClipWatch;
use clip::posting::Posting;
use explorer::refusal::Refusal;
use explorer::report::Report;
use explorer::verdict::Verdict;
use machine::machine::Machine;
use store::row_store::RowStore;
use store::store::Store;

// The six calls, with their grant and with the length of their area, which is 4 at most.
#[derive(Clone, Copy)]
pub(crate) enum Act {
    Begin,
    Advance(u16),
    Verdict,
    Trace(usize),
    Settle,
    Abandon,
}

// What a call names in place of the desk's own machine and store.
#[derive(Clone, Copy)]
pub(crate) enum Named {
    // nothing else
    Own,
    // a machine that is too wide
    TooWide,
    // a machine of width 7
    Wider,
    // a store of width 2, which has no room
    OtherStore,
    // a store of width 1, which has no room
    NoRoom,
}

#[derive(Clone, Copy)]
pub(crate) enum Call {
    // by the first explorer, on the desk's machine and store, or on what is named; its own ticket is shown
    Own(Act),
    On(Named, Act),
    // the same, but the ticket of the second explorer is shown; a begin shows no ticket, so it begins as with On
    Showing(Named, Act),
    // by the second explorer, on the desk's machine and a store of its own
    Other(Act),
    // someone else adds an entry with note 0 to the desk's store, clears it, or asks for its size
    Add(u8),
    Clear,
    Size,
}

// What a call tells.
#[derive(Clone, Copy, PartialEq, Eq, Debug)]
pub(crate) enum Heard {
    // by the number in docs/explorer.md, so that a list of answers is as short as the list of calls
    Refused(u8),
    Began,
    Advanced(u16, Verdict),
    // verdict, depth, entries expanded, entries kept; in a row, so that an answer is one line
    Told(Verdict, u16, u16, u16),
    Traced(u16),
    Settled(Verdict, u16),
    Abandoned,
    // someone else changed the store, or was told its size
    Done,
    Holds(u16),
}

// Two explorers, a machine, and a store of width 1 for each explorer.
#[derive(Drop)]
struct Desk<'a> {
    asker: Asker,
    other: Asker,
    machine: Counter,
    store: RowStore<'a>,
    second: RowStore<'a>,
}

// What the calls tell at a desk with so many rows in each store, 10 at most. The explorers have the numbers 1 and 2.
pub(crate) fn run<const N: usize>(machine: Counter, rows: usize, calls: [Call; N]) -> [Heard; N] {
    run_beside(2, machine, rows, calls)
}

// The same, where the second explorer has that number.
pub(crate) fn run_beside<const N: usize>(
    number: u16,
    machine: Counter,
    rows: usize,
    calls: [Call; N],
) -> [Heard; N] {
    let mut first = [0u8; 50];
    let mut second = [0u8; 50];
    let end = rows.min(10) * 5;
    let mut desk = Desk {
        asker: Asker::new(1),
        other: Asker::new(number),
        machine,
        store: RowStore::new(1, &mut first[0..end]),
        second: RowStore::new(1, &mut second[0..end]),
    };
    let mut heard = [Heard::Done; N];
    for (told, &call) in heard.iter_mut().zip(&calls) {
        *told = desk.make(call);
    }
    heard
}

impl Desk<'_> {
    fn make(&mut self, call: Call) -> Heard {
        let Desk {
            asker,
            other,
            machine,
            store,
            second,
        } = self;
        match call {
            Call::Own(act) => tell(asker, None, act, machine, store),
            Call::On(named, act) => tell_on(named, asker, None, act, machine, store),
            Call::Showing(named, act) => tell_on(named, asker, Some(other), act, machine, store),
            Call::Other(act) => tell(other, None, act, machine, second),
            Call::Add(value) => store.add(&[value], 0).map_or_else(
                |refusal| Heard::Refused(refusal.number()),
                |()| Heard::Done,
            ),
            Call::Clear => {
                store.clear();
                Heard::Done
            }
            Call::Size => Heard::Holds(store.size()),
        }
    }
}

// What a call tells on what is named, and for the rest on this machine and store. The arms differ in types, not in
// values alone.
fn tell_on(
    named: Named,
    asker: &mut Asker,
    other: Option<&mut Asker>,
    act: Act,
    machine: &Counter,
    store: &mut RowStore,
) -> Heard {
    match named {
        Named::Own => tell(asker, other, act, machine, store),
        Named::TooWide => tell(asker, other, act, &TooWide, store),
        Named::Wider => tell(asker, other, act, &ClipWatch::new(Posting::Above), store),
        Named::OtherStore => tell(asker, other, act, machine, &mut RowStore::new(2, &mut [])),
        Named::NoRoom => tell(asker, other, act, machine, &mut RowStore::new(1, &mut [])),
    }
}

// What a call tells, which shows the asker's own ticket or that of the other.
fn tell<M: Machine, S: Store>(
    asker: &mut Asker,
    other: Option<&mut Asker>,
    act: Act,
    machine: &M,
    store: &mut S,
) -> Heard {
    let answer = match act {
        Act::Begin => asker.begin(machine, store).map(|()| Heard::Began),
        Act::Advance(grant) => asker
            .advance(other.as_deref(), machine, store, grant)
            .map(|(used, verdict)| Heard::Advanced(used, verdict)),
        Act::Verdict => asker.verdict(other.as_deref(), machine, store).map(|said| Heard::Told(
            said.verdict,
            said.depth,
            said.expanded,
            said.kept,
        )),
        Act::Trace(room) => asker
            .trace(
                other.as_deref(),
                machine,
                store,
                &mut [0u8; 4][..room.min(4)],
            )
            .map(Heard::Traced),
        Act::Settle => asker
            .settle(other, machine, store)
            .map(|(verdict, depth)| Heard::Settled(verdict, depth)),
        Act::Abandon => asker
            .abandon(other, machine, store)
            .map(|()| Heard::Abandoned),
    };
    answer.unwrap_or_else(|refusal| Heard::Refused(refusal.number()))
}
