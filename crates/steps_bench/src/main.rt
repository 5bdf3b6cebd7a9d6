#![tactic(auto)]

// Makes as many step calls as its argument says, over the lines of the known program bumps, so that the time it takes
// tells how many step calls a second there are. It prints their number and a checksum of what they told.
use anyhow::anyhow;
use known::bumps::bumps;
use machine::machine::Machine;
use std::env;
use steps::program_machine::ProgramMachine;

// The sum with one byte more.
fn with_byte(sum: u32, byte: u8) -> u32 {
    sum.wrapping_mul(31).wrapping_add(u32::from(byte))
}

// Takes step 0 again and again, and begins anew at the start line where there is none. It gives the checksum of the
// kinds that were told and of the last line.
fn walk<M: Machine, const W: usize>(machine: &M, calls: u32, mut line: [u8; W]) -> u32 {
    let mut sum = 0;
    let mut next = [0u8; W];
    let _ = machine.start(&mut line);
    for _ in 0..calls {
        match machine.step(&line, 0, &mut next) {
            Ok((kind, _)) => {
                sum = with_byte(sum, kind);
                line = next;
            }
            Err(_) => {
                let _ = machine.start(&mut line);
            }
        }
    }
    line.iter().fold(sum, |sum, byte| with_byte(sum, *byte))
}

// The number that is the program's only argument.
fn asked(rt: &HostRuntime) -> anyhow::Result<u32> {
    let mut words = env::args(rt)?;
    let word = words.nth(1).ok_or_else(|| anyhow!("how many step calls?"))?;
    Ok(word.as_str().parse::<u32>()?)
}

fn run(rt: &HostRuntime) -> anyhow::Result<()> {
    let calls = asked(rt)?;
    let program = bumps(rt.alloc(), 3).map_err(|_| anyhow!("the program is not made"))?;
    let machine = ProgramMachine::new(program);
    let sum = walk(&machine, calls, [0u8; 80]);
    println!(rt; "{calls} step calls, checksum {sum}")?;
    Ok(())
}

fn main(rt: HostRuntime) -> anyhow::Result<()> {
    run(&rt)
}
