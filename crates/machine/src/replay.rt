ghost use Rattle.std.specs.Prelude.{◌≡◌, ◌≤◌, ◌&&◌, length};
ghost use Rattle.std.specs.Result.{result_err};
ghost use Rattle.machine.specs.Calls.{serves as fitting};
ghost use Rattle.machine.specs.Replays.{replayed, replay_told, replay_area, ReplayLaw};

use crate::machine::Machine;
use crate::replay_refusal::ReplayRefusal;
use crate::serves::serves;

// Takes the steps from the line on, and leaves the last line; or is stuck at the place of the first number
// that is not in the list of its line. The line changes, so no `At` holds it; the areas are the caller's, as no
// call allocates.
fn follow<M: Machine>(
    machine: &M,
    numbers: &[u8],
    line: &mut [u8],
    spare: &mut [u8],
) -> Result<(), usize>
    requires narrow { (M.Machine.meaning machine.now).width ≤ 256 }
    requires long { length line.old ≡ (M.Machine.meaning machine.now).width }
    requires room { length spare.old ≡ (M.Machine.meaning machine.now).width }
    ensures stuck { result_err result ≡ (replayed (M.Machine.meaning machine.now) 0 line.old numbers.now).stuck }
    ensures left { line.new ≡ (replayed (M.Machine.meaning machine.now) 0 line.old numbers.now).line }
{
    for (place, number) in numbers.iter().enumerate() {
        machine.step(line, *number, spare).map_err(|_| place)?;
        line.copy_from_slice(spare);
    }
    Ok(())
}

// Takes the steps of these numbers, one after the other, from the start line on: whether the last line is a
// goal, and that line in the first area. The second area is free.
pub fn replay<M: Machine>(
    machine: &M,
    numbers: &[u8],
    line: &mut [u8],
    spare: &mut [u8],
) -> Result<bool, ReplayRefusal>
    ensures told { result ≡ replay_told (M.Machine.meaning machine.now) numbers.now (length line.old) (length spare.old) }
    ensures left { line.new ≡ replay_area (M.Machine.meaning machine.now) numbers.now line.old (length spare.old) }
    ensures law { ReplayLaw (M.Machine.meaning machine.now) numbers.now (fitting (M.Machine.meaning machine.now) (length line.old) && fitting (M.Machine.meaning machine.now) (length spare.old)) result line.new }
{
    if !serves(machine.width(), spare.len()) {
        return Err(ReplayRefusal::Length);
    }
    machine.start(line).map_err(|_| ReplayRefusal::Length)?;
    follow(machine, numbers, line, spare).map_err(ReplayRefusal::NoStep)?;
    machine.goal(line).map_err(|_| ReplayRefusal::Length)
}
