#![tactic(auto)]

ghost use Rattle.std.specs.Prelude.{◌≤◌};

// Searches a night of the clip watch: with the handler posted above the picker, with the mistake, and with the mistake
// under bounds on delays. It prints each verdict with its counts and, where the goal is reached, the run that shows it.
use bounds::bounded::bounded;
use clip::clip_watch::ClipWatch;
use clip::kind::Kind;
use clip::night::WIDTH as NIGHT_WIDTH;
use clip::posting::Posting;
use clip::search::{STORE_BYTES, TRACE_BYTES, search};
use explorer::explorer::Explorer;
use explorer::report::Report;
use explorer::verdict::Verdict;
use machine::machine::Machine;
use machine::replay::replay;
use question::ask::ask;
use rule::bound::Bound;
use std::io;
use store::row_store::RowStore;
use store::store::Store;

// The lines of a bounded night are one byte longer: the first byte is what is left of the budget.
const BOUNDED_WIDTH: usize = NIGHT_WIDTH + 1;

// Room for them.
const BOUNDED_STORE_BYTES: usize = 2400;

// The word for a kind's number. A program has no library of its own, so known_demo has a word and a print_run of its
// own too, for the kinds of programs.
fn word(kind: u8) -> &'static str {
    Kind::try_from(kind).map_or("unknown", Kind::name)
}

// The words for a goal.
fn told(goal: bool) -> &'static str {
    if goal {
        "the picker is fooled"
    } else {
        "the picker is not fooled"
    }
}

// The start line, then each step's number, kind and delay with the line that it leads to, and where the replayer ends
// with these numbers.
fn print_run<M: Machine, const WIDTH: usize>(
    rt: &impl Print,
    machine: &M,
    numbers: &[u8],
) -> io::Result<()>
    requires { WIDTH ≤ 256 }
{
    let mut line = [0u8; WIDTH];
    let mut next = [0u8; WIDTH];
    if machine.start(&mut line).is_err() {
        return Ok(());
    }
    println!(rt; "  start        {line:?}")?;
    for &number in numbers {
        match machine.step(&line, number, &mut next) {
            Ok((kind, delay)) => println!(rt; "  {number} {:<9}{delay} {next:?}", word(kind))?,
            Err(refusal) => return println!(rt; "  {number} refused {}", refusal.number()),
        }
        line = next;
    }
    match replay(machine, numbers, &mut line, &mut next) {
        Ok(goal) => println!(rt; "  replayed     {line:?}, {}", told(goal)),
        Err(refusal) => println!(rt; "  replay refused {}", refusal.number()),
    }
}

// What a search of the machine told, and where the goal is reached the run that it wrote into the area.
fn print_night<M: Machine, const WIDTH: usize>(
    rt: &impl Print,
    machine: &M,
    report: Report,
    area: &[u8],
) -> io::Result<()>
    requires { WIDTH ≤ 256 }
{
    println!(rt; "  {report}")?;
    match area.get(..usize::from(report.depth)) {
        Some(numbers) if report.verdict == Verdict::Reached => {
            print_run::<M, WIDTH>(rt, machine, numbers)
        }
        _ => Ok(()),
    }
}

// One night, with the handler posted at that level.
fn night(rt: &HostRuntime, posting: Posting) -> io::Result<()> {
    let mut bytes = vec![in rt.alloc(); 0u8; STORE_BYTES]?;
    let mut area = [0u8; TRACE_BYTES];
    match search(posting, &mut bytes, &mut area) {
        Some(report) => print_night::<_, NIGHT_WIDTH>(rt, &ClipWatch::new(posting), report, &area),
        None => Ok(()),
    }
}

// The mistaken night once more, with that budget for delays.
fn bounded_night(rt: &HostRuntime, budget: u8) -> io::Result<()> {
    let mut bytes = vec![in rt.alloc(); 0u8; BOUNDED_STORE_BYTES]?;
    let mut area = [0u8; TRACE_BYTES];
    let machine = bounded(ClipWatch::new(Posting::Level), Bound::delay(budget));
    let mut store = RowStore::new(machine.width(), &mut bytes);
    match ask(&mut Explorer::new(0), &machine, &mut store, &mut area) {
        Ok(report) => print_night::<_, BOUNDED_WIDTH>(rt, &machine, report, &area),
        Err(refusal) => println!(rt; "  refused {}", refusal.number()),
    }
}

fn main(rt: HostRuntime) -> io::Result<()> {
    println!(rt; "handler posted above the picker")?;
    night(&rt, Posting::Above)?;
    println!(rt; "handler posted at the picker's level")?;
    night(&rt, Posting::Level)?;
    println!(rt; "the same, with no delay allowed")?;
    bounded_night(&rt, 0)?;
    println!(rt; "the same, with delays of 1 in all allowed")?;
    bounded_night(&rt, 1)
}
