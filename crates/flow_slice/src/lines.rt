//! The lines of a slice.
ghost use Rattle.std.specs.Prelude.{◌≡◌, ◌≤◌, map, length, if◌then◌else◌, IfOk};
ghost use Rattle.il_core.specs.Expression.{expression_of};
ghost use Rattle.il_core.specs.Procedure.{instruction_of, assign, skip};
ghost use Rattle.flow_slice.specs.Slice.{sliced, condition_kept};
ghost use Rattle.flow_slice.specs.Sides.{sliced_from, HaveHeadsBelow};

use crate::copying::copied;
use crate::side::side_of;
use il_core::{Expr, Line, List, NoMemory};
use std::alloc::Global;

/// The condition of a test: its own where the test is relevant, else the truth value to which it is fixed.
fn condition(alloc: Global, relevant: bool, taken: bool, expr: &Expr) -> Result<Expr, NoMemory>
    ensures { IfOk result (λ e. expression_of e ≡ condition_kept relevant taken (expression_of expr.now)) }
{
    if relevant {
        copied(alloc, expr)
    } else {
        Ok(Expr::Truth(taken))
    }
}

/// An assignment, where it is relevant, else SKIP.
fn assignment(alloc: Global, relevant: bool, place: usize, expr: &Expr) -> Result<Line, NoMemory>
    ensures { IfOk result (λ made. instruction_of made ≡ (if relevant then assign place (expression_of expr.now) else skip)) }
{
    if relevant {
        Ok(Line::Assign(place, copied(alloc, expr)?))
    } else {
        Ok(Line::Skip)
    }
}

/// What a slice has in the place of a line; a test would be fixed to `taken`.
fn sliced_line(alloc: Global, relevant: bool, taken: bool, line: &Line) -> Result<Line, NoMemory>
    ensures { IfOk result (λ made. instruction_of made ≡ sliced relevant taken (instruction_of line.now)) }
{
    match line {
        Line::Pre(_) => Ok(Line::Pre(Expr::Truth(true))),
        Line::Assign(place, expr) => assignment(alloc, relevant, *place, expr),
        Line::If(expr, target) => Ok(Line::If(condition(alloc, relevant, taken, expr)?, *target)),
        Line::Else(target) => Ok(Line::Else(*target)),
        Line::EndIf => Ok(Line::EndIf),
        Line::Loop => Ok(Line::Loop),
        Line::EndLoop(target) => Ok(Line::EndLoop(*target)),
        Line::Exit(target) => Ok(Line::Exit(*target)),
        Line::ExitWhen(expr, target) => Ok(Line::ExitWhen(
            condition(alloc, relevant, taken, expr)?,
            *target,
        )),
        Line::Label => Ok(Line::Label),
        Line::Goto(target) => Ok(Line::Goto(*target)),
        Line::Skip | Line::Assert(_) => Ok(Line::Skip),
        Line::Return(target) => Ok(Line::Return(*target)),
        Line::EndProc(_) => Ok(Line::EndProc(Expr::Truth(true))),
    }
}

/// The lines of a slice, by marks of the relevant lines and distances from them.
pub fn sliced_lines(
    alloc: Global,
    lines: &[Line],
    marks: &[bool],
    distances: &[Option<usize>],
) -> Result<List<Line>, NoMemory>
    requires few { length lines.now ≤ 1000 }
    requires size { length marks.now ≡ length lines.now }
    requires heads { HaveHeadsBelow (length distances.now) (map instruction_of lines.now) }
    ensures { IfOk result (λ made. map instruction_of made ≡ sliced_from marks.now distances.now 0 (map instruction_of lines.now)) }
{
    let mut made = List::new(alloc);
    for (at, line) in lines.iter().enumerate() {
        made.push(sliced_line(alloc, marks[at], side_of(distances, at, line), line)?)?;
    }
    Ok(made)
}
