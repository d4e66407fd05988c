//! Steps from one line to the next cut.
ghost use Rattle.std.specs.Prelude.{ℕ, ◌≡◌, ◌≤◌, ◌<◌, length};
ghost use Rattle.il_core.specs.Run.{IsInRange};
ghost use Rattle.il_core.specs.Checked.{procedure_of};
ghost use Rattle.line_machine.specs.Cut.{CyclesAreCut, Reaches};

use crate::stepping::step;
use il_core::{CheckedProc, Next, Stop};

/// Steps from line `pc` and the values `vals`, at least once, to a halt or to the first line that is marked in `cuts`,
/// whichever comes first, in at most as many steps as there are lines plus one. It takes no memory.
///
/// `pc` is a line of the procedure, `vals` has one value in range per place, `cuts` has one entry per line, and every
/// cycle of the line graph that can be reached from `pc` has a marked line.
pub fn run_to_cut(proc: &CheckedProc, cuts: &[bool], pc: usize, vals: &mut [i64]) -> Stop
    requires line { pc < length proc.now.lines }
    requires range { IsInRange proc.now.places vals.old }
    requires marks { length cuts.now ≡ length proc.now.lines }
    requires cut { CyclesAreCut (procedure_of proc.now) cuts.now pc }
    ensures steps { (n : ℕ) × (n ≤ length proc.now.lines) × Reaches (procedure_of proc.now) cuts.now n pc vals.old result vals.new }
    ensures range { IsInRange proc.now.places vals.new }
{
    let mut line = pc;
    for _taken in 0..proc.lines().len() + 1 {
        match step(proc, line, vals) {
            Next::Halted(halt) => return Stop::Halted(halt),
            Next::At(next) => {
                if cuts[next] {
                    return Stop::Head(next);
                }
                line = next;
            }
        }
    }
    unreachable!()
}
