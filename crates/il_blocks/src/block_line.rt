ghost use Rattle.std.specs.Prelude.{◌≡◌, ◌+◌, ◌<◌, ◌≤◌, map, length, IfOk};
ghost use Rattle.il_core.specs.Statement.{statement_of, placed};
ghost use Rattle.il_blocks.specs.BlockLink.{has_line, line_behind, is_end};
ghost use Rattle.il_blocks.specs.BlockTable.{AreLines, AreReturns};

use il_core::{Form, NoMemory, Stmt};
use std::alloc::Global;

/// Whether a statement is a line of its procedure.
pub(crate) fn has_line(form: &Form) -> bool
    ensures { result ≡ has_line (statement_of form.now) }
{
    match form {
        Form::Title(_) => false,
        Form::Const(_, _) => false,
        Form::RangeType(_, _, _) => false,
        Form::WrapType(_, _, _) => false,
        Form::EnumType(_, _) => false,
        Form::Proc(_) => false,
        Form::Variable(_, _, _) => false,
        Form::Post(_) => false,
        Form::Finish => false,
        _ => true,
    }
}

/// The next line behind a statement, where `next` is the next before it.
fn line_behind(next: usize, form: &Form) -> usize
    requires { next < usize.MAX }
    ensures value { result ≡ line_behind next (statement_of form.now) }
    ensures bound { result ≤ next + 1 }
{
    match form {
        Form::Proc(_) => 0,
        form if has_line(form) => next + 1,
        _ => next,
    }
}

/// The line of each statement, and behind them the next line. It takes time linear in the statements.
pub(crate) fn line_table(alloc: Global, stmts: &[Stmt]) -> Result<Vec<usize>, NoMemory>
    ensures { IfOk result (λ lines. AreLines (map placed stmts.now) lines.items) }
{
    let mut lines = Vec::new(alloc);
    let mut next = 0;
    for (i, stmt) in stmts.iter().enumerate() {
        lines.push(next)?;
        next = line_behind(next, &stmt.form);
    }
    lines.push(next)?;
    Ok(lines)
}

fn is_end(form: &Form) -> bool
    ensures { result ≡ is_end (statement_of form.now) }
{
    matches!(form, Form::EndProc)
}

/// The line of the next ENDPROC at or behind each statement; the next line behind all of them where there is none. It takes
/// time linear in the statements.
pub(crate) fn return_table(
    alloc: Global,
    lines: &[usize],
    stmts: &[Stmt],
) -> Result<Vec<usize>, NoMemory>
    requires { AreLines (map placed stmts.now) lines.now }
    ensures { IfOk result (λ returns. AreReturns (map placed stmts.now) returns.items) }
{
    let mut returns = vec![in alloc; 0; stmts.len()]?;
    let mut end = lines[stmts.len()];
    for i in (0..stmts.len()).rev() {
        if is_end(&stmts[i].form) {
            end = lines[i];
        }
        returns[i] = end;
    }
    Ok(returns)
}
