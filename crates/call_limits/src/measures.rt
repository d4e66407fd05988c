ghost use Rattle.std.specs.Prelude.{◌≡◌, IfOk};
ghost use Rattle.il_core.specs.Statement.{statement_of};
ghost use Rattle.call_limits.specs.Measures.{IsWithin, called, measured, table_behind};

use crate::extent::Extent;
use call_rules::procedure_named;
use il_core::{Form, Name, NoMemory};
use il_types::{Counts, Setting};

/// What counts of a procedure where it is called.
#[derive(Clone, Copy)]
pub(crate) struct Measures {
    /// The lines that a call counts as: one for each variable and OLD copy, the lines of the procedure, and one for each INOUT and OUT
    /// parameter.
    pub width: usize,
    /// The places that a call brings.
    pub places: usize,
}

/// The measures of a procedure, from the counts and the extent behind its last statement.
fn measured(counts: Counts, extent: Extent) -> Measures
    requires { IsWithin counts extent }
    ensures { result ≡ measured counts extent }
{
    Measures {
        width: counts.variables + counts.copies + extent.lines + extent.returned,
        places: counts.variables + extent.brought + counts.copies,
    }
}

/// Puts the measures of the latest procedure behind those of the others, where a statement begins the next one.
pub(crate) fn end_procedure(
    table: &mut Vec<Measures>,
    counts: Counts,
    extent: Extent,
    form: &Form,
) -> Result<(), NoMemory>
    requires { IsWithin counts extent }
    ensures { IfOk result (λ _. table.new.items ≡ table_behind table.old.items counts extent (statement_of form.now)) }
{
    match form {
        Form::Proc(_) => {
            if counts.procedures != 0 {
                table.push(measured(counts, extent))?;
            }
            Ok(())
        }
        _ => Ok(()),
    }
}

/// The measures of the earlier procedure that a name stands for; `None` where it stands for none. One or two look-ups.
pub(crate) fn called(table: &[Measures], setting: &Setting<'_>, name: &Name) -> Option<Measures>
    ensures { result ≡ called table.now setting.now name.now }
{
    match procedure_named(setting, name) {
        None => None,
        Some(number) => table.get(number.saturating_sub(1)).copied(),
    }
}
