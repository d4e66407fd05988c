ghost use Rattle.std.specs.Prelude.{◌≡◌, ◌<◌, ◌+◌, ◌^◌, nat_lt, map, IfOk};
ghost use Rattle.il_core.specs.Statement.{statement_of, placed};
ghost use Rattle.il_core.specs.Run.{is_inout};
ghost use Rattle.il_types.specs.Counts.{is_line, no_counts, counts_behind, too_many};
ghost use Rattle.il_types.specs.Counted.{AreCounted};
ghost use Rattle.il_types.specs.CountsBelow.{IsBehind};

use il_core::{Form, Many, Mode, NoMemory, Stmt};
use std::alloc::Global;

/// What the statements in front of a statement come to.
#[derive(Clone, Copy, PartialEq, Eq)]
pub struct Counts {
    /// The statements.
    pub statements: usize,
    /// The procedures.
    pub procedures: usize,
    /// The variables of the latest procedure.
    pub variables: usize,
    /// Its OLD copies, one for each INOUT variable.
    pub copies: usize,
    /// Its lines.
    pub lines: usize,
}

/// The greatest number of procedures.
pub(crate) const PROCEDURE_LIMIT: usize = 64;

/// The greatest number of lines of a procedure.
pub(crate) const LINE_LIMIT: usize = 1000;

/// The greatest number of places of a procedure.
pub(crate) const PLACE_LIMIT: usize = 64;

/// Whether a statement is a line of its procedure: its PRE, the statements of its body and its ENDPROC are.
pub fn is_line(form: &Form) -> bool
    ensures { result ≡ is_line (statement_of form.now) }
{
    match form {
        Form::Title(_) => false,
        Form::Const(_, _) => false,
        Form::RangeType(_, _, _) => false,
        Form::WrapType(_, _, _) => false,
        Form::EnumType(_, _) => false,
        Form::Proc(_) => false,
        Form::Variable(_, _, _) => false,
        Form::Post(_) => false,
        Form::Finish => false,
        _ => true,
    }
}

fn is_inout(mode: Mode) -> bool
    ensures { result ≡ is_inout mode }
{
    match mode {
        Mode::InOut => true,
        _ => false,
    }
}

/// The counts in front of the first statement.
pub fn no_counts() -> Counts
    ensures { result ≡ no_counts }
{
    Counts {
        statements: 0,
        procedures: 0,
        variables: 0,
        copies: 0,
        lines: 0,
    }
}

/// The counts behind statement `at`, from those before it.
pub fn counts_behind(counts: Counts, at: usize, form: &Form) -> Counts
    requires behind { IsBehind counts at }
    requires room { at + 1 < 2 ^ 64 }
    ensures counts { result ≡ counts_behind counts (statement_of form.now) }
    ensures behind { IsBehind result (at + 1) }
{
    let statements = counts.statements + 1;
    match form {
        Form::Proc(_) => Counts {
            statements,
            procedures: counts.procedures + 1,
            variables: 0,
            copies: 0,
            lines: 0,
        },
        Form::Variable(mode, _, _) => Counts {
            statements,
            variables: counts.variables + 1,
            copies: counts.copies + usize::from(is_inout(*mode)),
            ..counts
        },
        _ => Counts {
            statements,
            lines: counts.lines + usize::from(is_line(form)),
            ..counts
        },
    }
}

/// Whether variables and OLD copies are more than the places that there may be.
fn are_too_many(variables: usize, copies: usize) -> bool
    ensures { result ≡ nat_lt 64 (variables + copies) }
{
    variables > PLACE_LIMIT || copies > PLACE_LIMIT - variables
}

/// What there is too much of: more than 64 procedures, or in one more than 1,000 lines or 64 places; `None` where the counts keep the limits.
pub fn too_many(counts: Counts) -> Option<Many>
    ensures { result ≡ too_many counts }
{
    if counts.procedures > PROCEDURE_LIMIT {
        Some(Many::Procedures)
    } else if counts.lines > LINE_LIMIT {
        Some(Many::Lines)
    } else if are_too_many(counts.variables, counts.copies) {
        Some(Many::Places)
    } else {
        None
    }
}

/// The counts in front of each statement of a text, as many as there are statements. An error comes where memory runs out. The
/// time is linear.
pub fn all_counts(alloc: Global, stmts: &[Stmt]) -> Result<Vec<Counts>, NoMemory>
    ensures { IfOk result (λ v. AreCounted (map placed stmts.now) v.items) }
{
    let mut all = Vec::new(alloc);
    let mut counts = no_counts();
    for (i, stmt) in stmts.iter().enumerate() {
        all.push(counts)?;
        counts = counts_behind(counts, i, &stmt.form);
    }
    Ok(all)
}
