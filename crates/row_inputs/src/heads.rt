//! The lines that are loop heads.
ghost use Rattle.std.specs.Prelude.{◌≡◌, ◌<◌, ℕ, Bool, All, Some, IfOk, length, slice_get};
ghost use Rattle.row_inputs.specs.Heads.{AreMarked, IsMarked, IsUnmarked, MarkHeads};

use control_flow::LoopInfo;
use il_core::NoMemory;
use std::alloc::Global;

/// Marks a line, where there is one.
fn mark(marks: &mut [bool], line: usize)
    ensures size { length marks.new ≡ length marks.old }
    ensures each { (at : ℕ) (marked : Bool) → slice_get marks.new at ≡ Some marked → IsMarked marks.old line at marked }
{
    if line < marks.len() {
        marks[line] = true;
    }
}

/// Marks the head of each loop.
fn mark_heads(marks: &mut [bool], loops: &[LoopInfo])
    requires none { All IsUnmarked marks.old }
    ensures size { length marks.new ≡ length marks.old }
    ensures each { AreMarked loops.now marks.new }
{
    for info in loops {
        mark(marks, info.head);
    }
}

/// For each of so many lines whether it is a loop head. It takes time linear in the lines and loops.
pub fn marks_of(alloc: Global, lines: usize, loops: &[LoopInfo]) -> Result<Vec<bool>, NoMemory>
    ensures { IfOk result (λ marks. MarkHeads lines loops.now marks.items) }
{
    let mut marks = vec![in alloc; false; lines]?;
    mark_heads(&mut marks, loops);
    Ok(marks)
}

/// The mark of a line.
pub fn is_marked(marks: &[bool], line: usize) -> bool
    requires inside { line < length marks.now }
    ensures { slice_get marks.now line ≡ Some result }
{
    marks[line]
}
