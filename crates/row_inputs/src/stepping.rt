//! Whether stepping the lines from an input takes a row.
ghost use Rattle.std.specs.Prelude.{◌≡◌, ◌↔◌, ◌<◌, ◌+◌, List, ℕ, IsTrue, IfOk, length};
ghost use Rattle.control_flow.specs.declared.control.LoopInfo.{LoopInfo};
ghost use Rattle.il_core.specs.Checked.{procedure_of, IsChecked};
ghost use Rattle.il_core.specs.Run.{IsInRange};
ghost use Rattle.row_inputs.specs.Heads.{MarkHeads};
ghost use Rattle.row_inputs.specs.Input.{TakesDecisions};

use crate::heads::is_marked;
use il_core::{CheckedProc, Next, NoMemory, Stop};
use std::alloc::Global;
use test_graph::step_along;

/// Whether two stops are the same.
fn are_same(first: Stop, second: Stop) -> bool
    ensures { IsTrue result ↔ (first ≡ second) }
{
    first == second
}

/// Whether fewer than `room` + 1 steps from line `pc` and these values, of which the last alone halts or comes to a loop
/// head, take exactly the decisions of a path and stop like this. `heads` tells of each line whether it is a head. It
/// goes as deep as there is room.
fn takes(
    proc: &CheckedProc,
    heads: &[bool],
    room: usize,
    pc: usize,
    vals: &mut [i64],
    path: &[bool],
    stop: Stop,
) -> bool
    requires checked { IsChecked (procedure_of proc.now) }
    requires marks { length heads.now ≡ length proc.now.lines }
    requires line { pc < length proc.now.lines }
    requires range { IsInRange proc.now.places vals.old }
    ensures { (loops : List LoopInfo) → MarkHeads (length proc.now.lines) loops heads.now → IsTrue result ↔ ((n : ℕ) × (n < room) × TakesDecisions (procedure_of proc.now) loops n pc vals.old path.now stop) }
{
    if room == 0 {
        return false;
    }
    match step_along(proc, pc, vals, path) {
        Some(taken) => {
            let left = &path[taken.used..];
            match taken.next {
                Next::Halted(halt) => left.is_empty() && are_same(Stop::Halted(halt), stop),
                Next::At(line) => {
                    if is_marked(heads, line) {
                        left.is_empty() && are_same(Stop::Head(line), stop)
                    } else {
                        takes(proc, heads, room - 1, line, vals, left, stop)
                    }
                }
            }
        }
        None => false,
    }
}

/// Whether stepping the lines from line `pc` and an input, up to a halt or to the first loop head, takes exactly the
/// decisions of a path and stops like this, in at most one step more than there are lines. `heads` tells of each line
/// whether it is a head. It takes memory for the input's copy alone.
pub fn is_taken(
    alloc: Global,
    proc: &CheckedProc,
    heads: &[bool],
    pc: usize,
    input: &[i64],
    path: &[bool],
    stop: Stop,
) -> Result<bool, NoMemory>
    requires marks { length heads.now ≡ length proc.now.lines }
    requires line { pc < length proc.now.lines }
    requires range { IsInRange proc.now.places input.now }
    ensures { IfOk result (λ b. (loops : List LoopInfo) → MarkHeads (length proc.now.lines) loops heads.now → IsTrue b ↔ ((n : ℕ) × (n < length proc.now.lines + 1) × TakesDecisions (procedure_of proc.now) loops n pc input.now path.now stop)) }
{
    let mut vals = Vec::new(alloc);
    vals.extend_from_slice(input)?;
    let room = proc.lines().len() + 1;
    Ok(takes(proc, heads, room, pc, &mut vals, path, stop))
}
