ghost use Rattle.std.specs.Prelude.{◌≡◌, ◌<◌, ◌∷◌, [], map, length, MatchOption, IfOk};
ghost use Rattle.std.specs.Option.{option_to_list, option_map};
ghost use Rattle.il_core.specs.Expression.{expression_of};
ghost use Rattle.il_core.specs.Procedure.{instruction_of};
ghost use Rattle.il_core.specs.Statement.{statement_of};
ghost use Rattle.il_core.specs.Tree.{tree_of};
ghost use Rattle.il_types.specs.Built.{built};
ghost use Rattle.il_types.specs.Names.{Setting, front_of};
ghost use Rattle.il_built.specs.CheckedText.{posted, post_of, target_at, instructions, lines_of};
ghost use Rattle.il_built.specs.Plain.{plain_lines};
ghost use Rattle.il_built.specs.Span.{AreStatementsOf};

use crate::expressions::{build_expression, place_of_name};
use crate::spans::Span;
use il_core::{Expr, Form, Line, Link, List, NoMemory, RawExpr};
use il_types::Setting;
use std::alloc::Global;

/// The expression of a POST.
fn posted(form: &Form) -> Option<&RawExpr>
    ensures { MatchOption result ((s : Setting) → posted s (statement_of form.now) ≡ []) (λ raw. (s : Setting) → posted s (statement_of form.now) ≡ built s (tree_of raw.now) ∷ []) }
{
    match form {
        Form::Post(raw) => Some(raw),
        _ => None,
    }
}

/// The condition of the POST of the procedure with these statements. Linear in the procedure but for the look-ups by name.
fn post_of(alloc: Global, setting: &Setting<'_>, span: Span) -> Result<Expr, NoMemory>
    requires names { setting.now.table ≡ (front_of setting.now.stmts).table }
    requires statements { AreStatementsOf setting.now.stmts span.owner span.from span.to }
    ensures { IfOk result (λ e. expression_of e ≡ post_of setting.now.stmts span.owner) }
{
    for i in span.from..span.to {
        let here = setting.in_procedure(span.owner, i);
        if let Some(raw) = posted(&here.stmt().form) {
            return build_expression(alloc, &here, raw);
        }
    }
    Ok(Expr::Truth(true))
}

/// The line to which statement `at` may jump, 0 where it names none.
pub fn target_at(links: &[Link], at: usize) -> usize
    ensures { result ≡ target_at links.now at }
{
    match links.get(at) {
        Some(Link::Jump(_, target)) => *target,
        _ => 0,
    }
}

/// The line that a statement without an expression is.
fn plain_line(target: usize, form: &Form) -> Option<Line>
    ensures { option_to_list (option_map instruction_of result) ≡ plain_lines target (statement_of form.now) }
{
    match form {
        Form::Else => Some(Line::Else(target)),
        Form::EndIf => Some(Line::EndIf),
        Form::Loop => Some(Line::Loop),
        Form::EndLoop => Some(Line::EndLoop(target)),
        Form::Exit => Some(Line::Exit(target)),
        Form::Label(_) => Some(Line::Label),
        Form::Goto(_) => Some(Line::Goto(target)),
        Form::Call(_, _) => Some(Line::Skip),
        Form::Skip => Some(Line::Skip),
        Form::Return => Some(Line::Return(target)),
        _ => None,
    }
}

/// The line that a statement of the procedure with these statements is, which may jump to `target`; `None` where it is no line. An error
/// comes where memory runs out. An ENDPROC takes time that is linear in the procedure, any other in the statement, but for the look-ups
/// by name.
pub fn line_of(
    alloc: Global,
    setting: &Setting<'_>,
    span: Span,
    target: usize,
    form: &Form,
) -> Result<Option<Line>, NoMemory>
    requires names { setting.now.table ≡ (front_of setting.now.stmts).table }
    requires statements { AreStatementsOf setting.now.stmts span.owner span.from span.to }
    requires inside { setting.now.at < length setting.now.stmts }
    ensures { IfOk result (λ o. option_to_list (option_map instruction_of o) ≡ instructions setting.now (post_of setting.now.stmts span.owner) target (statement_of form.now)) }
{
    match form {
        Form::Pre(raw) => {
            let condition = build_expression(alloc, setting, raw)?;
            Ok(Some(Line::Pre(condition)))
        }
        Form::Assign(name, raw) => {
            let place = place_of_name(setting, name);
            let value = build_expression(alloc, setting, raw)?;
            Ok(Some(Line::Assign(place, value)))
        }
        Form::If(raw) => {
            let condition = build_expression(alloc, setting, raw)?;
            Ok(Some(Line::If(condition, target)))
        }
        Form::ExitWhen(raw) => {
            let condition = build_expression(alloc, setting, raw)?;
            Ok(Some(Line::ExitWhen(condition, target)))
        }
        Form::Assert(raw) => {
            let condition = build_expression(alloc, setting, raw)?;
            Ok(Some(Line::Assert(condition)))
        }
        Form::EndProc => {
            let condition = post_of(alloc, setting, span)?;
            Ok(Some(Line::EndProc(condition)))
        }
        _ => Ok(plain_line(target, form)),
    }
}

/// The lines of the procedure with these statements: its PRE, the statements of its body and its ENDPROC, which has the condition
/// of its POST. Linear but for the look-ups by name.
pub(crate) fn lines_of(
    alloc: Global,
    setting: &Setting<'_>,
    links: &[Link],
    span: Span,
) -> Result<List<Line>, NoMemory>
    requires names { setting.now.table ≡ (front_of setting.now.stmts).table }
    requires statements { AreStatementsOf setting.now.stmts span.owner span.from span.to }
    ensures { IfOk result (λ v. map instruction_of v ≡ lines_of setting.now.stmts links.now span.owner) }
{
    let mut lines = List::new(alloc);
    for i in span.from..span.to {
        let here = setting.in_procedure(span.owner, i);
        let target = target_at(links, i);
        if let Some(line) = line_of(alloc, &here, span, target, &here.stmt().form)? {
            lines.push(line)?;
        }
    }
    Ok(lines)
}
