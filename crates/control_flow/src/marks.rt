//! Marks of lines, one for each line, and the lists of marked lines.
ghost use Rattle.std.specs.Prelude.{◌≡◌, ℕ, ◌<◌, ◌≤◌, ◌↔◌, length, IfOk};
ghost use Rattle.flow_graph.specs.Search.{IsMarked, IsUnmarked};
ghost use Rattle.flow_graph.specs.Reached.{Lists};

use il_core::{List, NoMemory};
use std::alloc::Global;

/// Marks of `count` lines, of which those from `from` on and below `to` are set.
pub fn marks_between(
    alloc: Global,
    count: usize,
    from: usize,
    to: usize,
) -> Result<Vec<bool>, NoMemory>
    requires { to ≤ count }
    ensures size { IfOk result (λ m. length m.items ≡ count) }
    ensures exact { IfOk result (λ m. (k : ℕ) → IsMarked m.items k ↔ ((from ≤ k) × (k < to))) }
{
    let mut marks = Vec::with_capacity(alloc, count)?;
    for at in 0..count {
        marks.push(from <= at && at < to)?;
    }
    Ok(marks)
}

/// The marks that are set in `first` and not in `second`.
pub fn without(alloc: Global, first: &[bool], second: &[bool]) -> Result<Vec<bool>, NoMemory>
    requires { length first.now ≡ length second.now }
    ensures size { IfOk result (λ m. length m.items ≡ length first.now) }
    ensures exact { IfOk result (λ m. (k : ℕ) → IsMarked m.items k ↔ (IsMarked first.now k × IsUnmarked second.now k)) }
{
    let mut marks = Vec::with_capacity(alloc, first.len())?;
    for at in 0..first.len() {
        marks.push(first[at] && !second[at])?;
    }
    Ok(marks)
}

/// The marked lines, ascending.
pub fn marked_lines(alloc: Global, marks: &[bool]) -> Result<List<usize>, NoMemory>
    ensures { IfOk result (Lists (IsMarked marks.now)) }
{
    let mut lines = List::new(alloc);
    for at in 0..marks.len() {
        if marks[at] {
            lines.push(at)?;
        }
    }
    Ok(lines)
}
