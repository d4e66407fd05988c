ghost use Rattle.std.specs.Prelude.{◌≡◌, map};
ghost use Rattle.std.specs.List.{list_any};
ghost use Rattle.il_core.specs.Statement.{placed, statement_of};
ghost use Rattle.il_blocks.specs.BlockLink.{AreLinks};
ghost use Rattle.il_syntax.specs.Order.{IsInOrder};
ghost use Rattle.il_built.specs.CheckedText.{use_wraps, wraps, profile_of, title_of, CheckGives};

use crate::laws::procedures_are_checked;
use crate::procedures::procedures_of;
use il_core::{CheckedText, Form, Link, Name, Stmt, TextEnd, TypeUse};
use il_types::{all_counts, declare_all, first_refusal};
use std::alloc::Global;

/// The title of a text in order. Constant time.
pub fn title_of(stmts: &[Stmt]) -> Name
    requires { IsInOrder (map placed stmts.now) }
    ensures { result ≡ title_of (map placed stmts.now) }
{
    match stmts.first() {
        Some(
            Stmt {
                form: Form::Title(name),
                ..
            },
        ) => *name,
        _ => unreachable!(),
    }
}

fn use_wraps(used: &TypeUse) -> bool
    ensures { result ≡ use_wraps used.now }
{
    matches!(used, TypeUse::Wrap(_, _))
}

/// Whether a statement has a WRAP.
fn wraps(form: &Form) -> bool
    ensures { result ≡ wraps (statement_of form.now) }
{
    match form {
        Form::WrapType(_, _, _) => true,
        Form::Variable(_, _, used) => use_wraps(used),
        _ => false,
    }
}

/// Whether some statement has a WRAP.
fn has_wrap(stmts: &[Stmt]) -> bool
    ensures { result ≡ list_any (λ stmt. wraps (statement_of stmt.form)) stmts.now }
{
    stmts.iter().any(|stmt| wraps(&stmt.form))
}

/// The profile of a text: 2 where a statement has a WRAP, else 1. Linear in the text.
pub fn profile_of(stmts: &[Stmt]) -> u8
    ensures { result ≡ profile_of (map placed stmts.now) }
{
    if has_wrap(stmts) { 2 } else { 1 }
}

/// The checked text of statements in order with their links: its title, its profile, which is 2 where a statement has a WRAP and else
/// 1, and a procedure for each PROC. The places of a procedure are its variables in the order of their declarations, and then the OLD
/// copies of the INOUT ones. Its lines are its PRE, the statements of its body and its ENDPROC, which has the condition of its POST.
/// Constants, types and enumeration values are replaced by their numbers, and names by the numbers of their places.
///
/// The text is refused exactly where `il_types::first_refusal` refuses it, which lists the rules, and with that refusal. The other
/// error, `NoMemory`, comes where memory runs out.
///
/// The statements of a procedure are those up to the next PROC, so each is gone over a few times, and the time is linear in the text
/// but for the look-ups by name.
pub fn check(alloc: Global, stmts: &[Stmt], links: &[Link]) -> Result<CheckedText, TextEnd>
    requires order { IsInOrder (map placed stmts.now) }
    requires links { AreLinks (map placed stmts.now) links.now }
    ensures { CheckGives (map placed stmts.now) links.now result }
{
    if let Some(refusal) = first_refusal(alloc, stmts)? {
        return Err(TextEnd::Refused(refusal));
    }
    let names = declare_all(alloc, stmts)?;
    let counts = all_counts(alloc, stmts)?;
    procedures_are_checked();
    let procs = procedures_of(alloc, &names, counts.as_slice(), stmts, links)?;
    Ok(CheckedText::new(title_of(stmts), procs, profile_of(stmts)))
}
