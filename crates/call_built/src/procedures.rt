ghost use Rattle.std.specs.Prelude.{◌≡◌, map, IfOk};
ghost use Rattle.il_core.specs.Statement.{placed};
ghost use Rattle.il_types.specs.Counted.{AreCounted};
ghost use Rattle.il_types.specs.Names.{front_of};
ghost use Rattle.il_built.specs.Span.{AreStatementsOf};
ghost use Rattle.il_called.specs.Called.{procedure_of};
ghost use Rattle.call_rules.specs.CalledText.{written_procedure, written_procedures};
ghost use Rattle.call_rules.specs.Parameters.{AreParameters};

use crate::lines::lines_of;
use call_rules::Parameters;
use il_built::{Span, named, places_of, span_of};
use il_called::CalledProc;
use il_core::{Link, List, Name, NoMemory, Stmt};
use il_types::{Counts, Names, Setting};
use std::alloc::Global;

/// The procedure of this name with these statements. Linear in them but for the look-ups by name.
fn build_procedure(
    alloc: Global,
    setting: &Setting<'_>,
    parameters: &Parameters,
    links: &[Link],
    span: Span,
    name: Name,
) -> Result<CalledProc, NoMemory>
    requires names { setting.now.table ≡ (front_of setting.now.stmts).table }
    requires parameters { AreParameters setting.now.stmts parameters.now }
    requires statements { AreStatementsOf setting.now.stmts span.owner span.from span.to }
    ensures { IfOk result (λ p. procedure_of p ≡ written_procedure setting.now.stmts links.now span.owner name) }
{
    let places = places_of(alloc, setting, span)?;
    let lines = lines_of(alloc, setting, parameters, links, span)?;
    Ok(CalledProc {
        name,
        places,
        lines,
    })
}

/// The procedures of a text with calls, in their order, from its statements, their links, the table of its declarations, the counts in
/// front of its statements and the parameters of its procedures. The places of a procedure are its variables in the order of their
/// declarations, and then the OLD copies of the INOUT ones. Its lines are its PRE, the statements of its body and its ENDPROC, which has
/// the condition of its POST. A CALL is a call of the procedure that it names, which gives each INOUT and OUT parameter the variable to
/// which it is handed back, and each other one a value.
///
/// These are the procedures that the rules of texts with calls speak of; that they are checked ones where no rule is broken is not told
/// here. An error comes where memory runs out. Linear in the text but for the look-ups by name.
pub fn called_procedures(
    alloc: Global,
    names: &Names,
    counts: &[Counts],
    parameters: &Parameters,
    stmts: &[Stmt],
    links: &[Link],
) -> Result<List<CalledProc>, NoMemory>
    requires counted { AreCounted (map placed stmts.now) counts.now }
    requires names { names.now ≡ (front_of (map placed stmts.now)).table }
    requires parameters { AreParameters (map placed stmts.now) parameters.now }
    ensures { IfOk result (λ ps. map procedure_of ps ≡ written_procedures (map placed stmts.now) links.now) }
{
    let mut procs = List::new(alloc);
    for (i, stmt) in stmts.iter().enumerate() {
        if let Some(name) = named(stmt) {
            let span = span_of(counts, stmts, procs.len() + 1, i);
            let setting = Setting::new(names, counts, stmts, span.owner, i);
            let proc = build_procedure(alloc, &setting, parameters, links, span, name)?;
            procs.push(proc)?;
        }
    }
    Ok(procs)
}
