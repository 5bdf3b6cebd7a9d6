#![tactic(auto)]

ghost use Rattle.std.specs.Prelude.{◌≤◌};

// Asks about the known programs, and prints for each its verdict with the counts, and for two of them the run to the goal.
use explorer::explorer::Explorer;
use known::bumps::bumps;
use known::error::KnownError;
use known::puts::puts;
use known::recursive::recursive;
use known::sampler::sampler;
use known::two_mains::two_mains;
use machine::machine::Machine;
use program::kind::Kind;
use program::program::Program;
use question::ask::ask;
use std::io;
use steps::program_machine::ProgramMachine;
use store::row_store::RowStore;
use store::store::Store;

// Room for the store's rows, and for the step numbers of a run.
const STORE_BYTES: usize = 8000;

const TRACE_BYTES: usize = 16;

// The bytes of a line of a program with one buffer and one global.
const LINE_BYTES: usize = 80;

// The word for a kind's number. The demo of the clip watch has the same function, with its own kinds: a program has no
// library of its own.
fn word(kind: u8) -> &'static str {
    Kind::try_from(kind).map_or("unknown", Kind::name)
}

// Each step's number, kind and delay, from the start line on.
fn print_run<M: Machine, const WIDTH: usize>(
    rt: &impl Print,
    machine: &M,
    numbers: &[u8],
) -> io::Result<()>
    requires { WIDTH ≤ 256 }
{
    let mut line = [0u8; WIDTH];
    let mut next = [0u8; WIDTH];
    if machine.start(&mut line).is_err() {
        return Ok(());
    }
    for &number in numbers {
        match machine.step(&line, number, &mut next) {
            Ok((kind, delay)) => println!(rt; "  {number} {:<9}{delay}", word(kind))?,
            Err(refusal) => return println!(rt; "  {number} refused {}", refusal.number()),
        }
        line = next;
    }
    Ok(())
}

// Asks about a program and prints the report. It gives the machine with the length of the run, whose step numbers then
// lie in the area.
fn question(
    rt: &HostRuntime,
    name: &str,
    made: Result<Program, KnownError>,
    area: &mut [u8],
) -> io::Result<Option<(ProgramMachine, usize)>> {
    let Ok(program) = made else {
        println!(rt; "{name}: not made")?;
        return Ok(None);
    };
    let machine = ProgramMachine::new(program);
    let mut bytes = vec![in rt.alloc(); 0u8; STORE_BYTES]?;
    let mut store = RowStore::new(machine.width(), &mut bytes);
    match ask(&mut Explorer::new(0), &machine, &mut store, area) {
        Ok(report) => {
            println!(rt; "{name}: {report}")?;
            Ok(Some((machine, usize::from(report.depth))))
        }
        Err(refusal) => {
            println!(rt; "{name}: refused {}", refusal.number())?;
            Ok(None)
        }
    }
}

// The report alone.
fn show(rt: &HostRuntime, name: &str, made: Result<Program, KnownError>) -> io::Result<()> {
    question(rt, name, made, &mut [0u8; TRACE_BYTES])?;
    Ok(())
}

// The report and the run.
fn show_run(rt: &HostRuntime, name: &str, made: Result<Program, KnownError>) -> io::Result<()> {
    let mut area = [0u8; TRACE_BYTES];
    let Some((machine, depth)) = question(rt, name, made, &mut area)? else {
        return Ok(());
    };
    match area.get(..depth) {
        Some(numbers) => print_run::<_, LINE_BYTES>(rt, &machine, numbers),
        None => Ok(()),
    }
}

fn main(rt: HostRuntime) -> io::Result<()> {
    let heap = rt.alloc();
    show_run(&rt, "bumps to 3", bumps(heap, 3))?;
    show(&rt, "bumps to 2", bumps(heap, 2))?;
    show(&rt, "bumps to 0", bumps(heap, 0))?;
    show_run(&rt, "puts", puts(heap))?;
    show(&rt, "two mains", two_mains(heap))?;
    show(&rt, "recursive", recursive(heap))?;
    show(&rt, "sampler", sampler(heap))
}
