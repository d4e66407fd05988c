ghost use Rattle.std.specs.Prelude.{◌≡◌, ◌<◌, map, length, IfOk};
ghost use Rattle.std.specs.Option.{option_to_list, option_map};
ghost use Rattle.il_core.specs.Statement.{statement_of};
ghost use Rattle.il_types.specs.Names.{front_of};
ghost use Rattle.il_built.specs.Holding.{setting_at};
ghost use Rattle.il_built.specs.Span.{AreStatementsOf};
ghost use Rattle.il_called.specs.Called.{written_of};
ghost use Rattle.call_rules.specs.CalledText.{written_lines, lines_before};
ghost use Rattle.call_rules.specs.Parameters.{AreParameters};

use crate::arguments::call_of;
use call_rules::Parameters;
use il_built::{Span, line_of, target_at};
use il_called::CalledLine;
use il_core::{Form, Link, List, NoMemory};
use il_types::Setting;
use std::alloc::Global;

/// The line that a statement of the procedure with these statements is; `None` where it is no line.
fn called_line_of(
    alloc: Global,
    setting: &Setting<'_>,
    parameters: &Parameters,
    links: &[Link],
    span: Span,
    form: &Form,
) -> Result<Option<CalledLine>, NoMemory>
    requires inside { setting.now.at < length setting.now.stmts }
    requires here { setting.now ≡ setting_at setting.now.stmts setting.now.at }
    requires parameters { AreParameters setting.now.stmts parameters.now }
    requires statements { AreStatementsOf setting.now.stmts span.owner span.from span.to }
    ensures { IfOk result (λ o. option_to_list (option_map written_of o) ≡ written_lines setting.now.stmts links.now span.owner setting.now.at (statement_of form.now)) }
{
    match form {
        Form::Call(name, arguments) => {
            let line = call_of(alloc, setting, parameters, name, arguments.as_slice())?;
            Ok(Some(line))
        }
        _ => {
            let target = target_at(links, setting.at());
            let line = line_of(alloc, setting, span, target, form)?;
            Ok(line.map(CalledLine::Own))
        }
    }
}

/// The lines of the procedure with these statements: its PRE, the statements of its body and its ENDPROC, which has the condition of
/// its POST. An error comes where memory runs out. Linear but for the look-ups by name.
pub(crate) fn lines_of(
    alloc: Global,
    setting: &Setting<'_>,
    parameters: &Parameters,
    links: &[Link],
    span: Span,
) -> Result<List<CalledLine>, NoMemory>
    requires names { setting.now.table ≡ (front_of setting.now.stmts).table }
    requires parameters { AreParameters setting.now.stmts parameters.now }
    requires statements { AreStatementsOf setting.now.stmts span.owner span.from span.to }
    ensures { IfOk result (λ v. map written_of v ≡ lines_before setting.now.stmts links.now span.owner (length setting.now.stmts)) }
{
    let mut lines = List::new(alloc);
    for i in span.from..span.to {
        let here = setting.in_procedure(span.owner, i);
        let form = &here.stmt().form;
        if let Some(line) = called_line_of(alloc, &here, parameters, links, span, form)? {
            lines.push(line)?;
        }
    }
    Ok(lines)
}
