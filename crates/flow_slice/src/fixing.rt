//! The lines that a slice keeps and the tests that it fixes.
ghost use Rattle.std.specs.Prelude.{◌≡◌, ◌<◌, ◌≤◌, ◌↔◌, map, length, IsTrue, IfOk};
ghost use Rattle.il_core.specs.Procedure.{instruction_of};
ghost use Rattle.flow_graph.specs.Graph.{kind_of};
ghost use Rattle.flow_graph.specs.Reached.{Lists};
ghost use Rattle.flow_graph.specs.Search.{IsMarked, IsUnmarked};
ghost use Rattle.flow_graph.specs.declared.graph.NodeKind.TheVariants.{Test};
ghost use Rattle.flow_slice.specs.Sides.{HaveHeadsBelow, AreFixed};

use crate::side::side_of;
use crate::sliced::Fixed;
use il_core::{Line, List, NoMemory};
use std::alloc::Global;

/// Whether a line is a test.
fn is_test(line: &Line) -> bool
    ensures { IsTrue result ↔ (kind_of (instruction_of line.now) ≡ Test) }
{
    matches!(line, Line::If(_, _) | Line::ExitWhen(_, _))
}

/// Whether a line is reachable and relevant.
fn is_kept(reached: &[bool], marks: &[bool], line: usize) -> bool
    requires reached { line < length reached.now }
    requires marks { line < length marks.now }
    ensures { IsTrue result ↔ (IsMarked reached.now line × IsMarked marks.now line) }
{
    reached[line] && marks[line]
}

/// Whether a line is a reachable test that is not relevant.
fn is_loose(reached: &[bool], marks: &[bool], at: usize, line: &Line) -> bool
    requires reached { at < length reached.now }
    requires marks { at < length marks.now }
    ensures { IsTrue result ↔ (IsMarked reached.now at × IsUnmarked marks.now at × (kind_of (instruction_of line.now) ≡ Test)) }
{
    reached[at] && !marks[at] && is_test(line)
}

/// The reachable lines that are relevant, ascending.
pub fn kept_lines(alloc: Global, reached: &[bool], marks: &[bool]) -> Result<List<usize>, NoMemory>
    requires { length reached.now ≡ length marks.now }
    ensures { IfOk result (Lists (λ k. IsMarked reached.now k × IsMarked marks.now k)) }
{
    let mut kept = List::new(alloc);
    for line in 0..marks.len() {
        if is_kept(reached, marks, line) {
            kept.push(line)?;
        }
    }
    Ok(kept)
}

/// The reachable tests that are not relevant, ascending, each with the truth value to which it is fixed.
pub fn fixed_tests(
    alloc: Global,
    lines: &[Line],
    reached: &[bool],
    marks: &[bool],
    distances: &[Option<usize>],
) -> Result<List<Fixed>, NoMemory>
    requires few { length lines.now ≤ 1000 }
    requires reached { length reached.now ≡ length lines.now }
    requires size { length marks.now ≡ length lines.now }
    requires heads { HaveHeadsBelow (length distances.now) (map instruction_of lines.now) }
    ensures { IfOk result (AreFixed (map instruction_of lines.now) reached.now marks.now distances.now) }
{
    let mut fixed = List::new(alloc);
    for (line, item) in lines.iter().enumerate() {
        if is_loose(reached, marks, line, item) {
            let taken = side_of(distances, line, item);
            fixed.push(Fixed { line, taken })?;
        }
    }
    Ok(fixed)
}
