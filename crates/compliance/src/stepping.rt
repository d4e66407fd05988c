//! Whether stepping the lines from an input takes a path.
ghost use Rattle.std.specs.Prelude.{◌≡◌, ◌↔◌, ◌<◌, ◌*◌, ◌+◌, ℕ, IsTrue, IfOk, length};
ghost use Rattle.il_core.specs.Checked.{procedure_of, IsChecked};
ghost use Rattle.il_core.specs.Run.{IsInRange};
ghost use Rattle.compliance.specs.Verdict.{TakesDecisions};

use il_core::{CheckedProc, Halt, Next, NoMemory};
use std::alloc::Global;
use test_graph::step_along;

/// Whether two halts are the same.
fn are_same(first: Halt, second: Halt) -> bool
    ensures { IsTrue result ↔ (first ≡ second) }
{
    first == second
}

/// Whether at most `room` steps from line `pc` and these values take exactly the decisions of a path and halt like this.
/// It goes as deep as there is room.
fn takes(
    proc: &CheckedProc,
    room: usize,
    pc: usize,
    vals: &mut [i64],
    path: &[bool],
    halt: Halt,
) -> bool
    requires checked { IsChecked (procedure_of proc.now) }
    requires line { pc < length proc.now.lines }
    requires range { IsInRange proc.now.places vals.old }
    ensures { IsTrue result ↔ ((n : ℕ) × (n < room) × TakesDecisions (procedure_of proc.now) n pc vals.old path.now halt) }
{
    if room == 0 {
        return false;
    }
    match step_along(proc, pc, vals, path) {
        Some(taken) => {
            let left = &path[taken.used..];
            match taken.next {
                Next::Halted(end) => left.is_empty() && are_same(end, halt),
                Next::At(line) => takes(proc, room - 1, line, vals, left, halt),
            }
        }
        None => false,
    }
}

/// Whether stepping the lines from line `pc` and an input takes exactly the decisions of a path and halts like this, in
/// at most twice as many steps as there are lines, and two. It takes memory for the input's copy alone.
pub fn is_taken(
    alloc: Global,
    proc: &CheckedProc,
    pc: usize,
    input: &[i64],
    path: &[bool],
    halt: Halt,
) -> Result<bool, NoMemory>
    requires line { pc < length proc.now.lines }
    requires range { IsInRange proc.now.places input.now }
    ensures { IfOk result (λ b. IsTrue b ↔ ((n : ℕ) × (n < 2 * length proc.now.lines + 2) × TakesDecisions (procedure_of proc.now) n pc input.now path.now halt)) }
{
    let mut vals = Vec::new(alloc);
    vals.extend_from_slice(input)?;
    let room = 2 * proc.lines().len() + 2;
    Ok(takes(proc, room, pc, &mut vals, path, halt))
}
