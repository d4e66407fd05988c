ghost use Rattle.std.specs.Prelude.{◌≡◌, [], map, MatchOption, IfOk};
ghost use Rattle.il_core.specs.Checked.{IsChecked};
ghost use Rattle.il_core.specs.Statement.{placed, procedure};
ghost use Rattle.il_core.specs.Text.{text_procedure};
ghost use Rattle.il_types.specs.Counted.{AreCounted};
ghost use Rattle.il_types.specs.Names.{front_of};
ghost use Rattle.il_built.specs.CheckedText.{named, procedure_of, procedure_names, procedures_from};
ghost use Rattle.il_built.specs.Laws.{AreCheckedProcedures};
ghost use Rattle.il_built.specs.Span.{AreStatementsOf};

use crate::lines::lines_of;
use crate::spans::{Span, span_of};
use crate::variables::places_of;
use il_core::{CheckedProc, Form, Link, List, Name, NoMemory, Stmt};
use il_types::{Counts, Names, Setting};
use std::alloc::Global;

/// The procedure of this name with these statements. Linear in them but for the look-ups by name.
fn build_procedure(
    alloc: Global,
    setting: &Setting<'_>,
    links: &[Link],
    span: Span,
    name: Name,
) -> Result<CheckedProc, NoMemory>
    requires names { setting.now.table ≡ (front_of setting.now.stmts).table }
    requires statements { AreStatementsOf setting.now.stmts span.owner span.from span.to }
    requires checked { IsChecked (procedure_of setting.now.stmts links.now span.owner) }
    ensures { IfOk result (λ p. text_procedure p ≡ record { name = name; body = procedure_of setting.now.stmts links.now span.owner }) }
{
    let places = places_of(alloc, setting, span)?;
    let lines = lines_of(alloc, setting, links, span)?;
    Ok(CheckedProc::new(name, places, lines))
}

/// The name of the procedure that a statement begins. Constant time.
pub fn named(stmt: &Stmt) -> Option<Name>
    ensures { MatchOption result (named (placed stmt.now) ≡ []) (λ name. (placed stmt.now).says ≡ procedure name) }
{
    match &stmt.form {
        Form::Proc(name) => Some(*name),
        _ => None,
    }
}

/// The procedures of a text, in their order. Linear in the text but for the look-ups by name.
pub(crate) fn procedures_of(
    alloc: Global,
    names: &Names,
    counts: &[Counts],
    stmts: &[Stmt],
    links: &[Link],
) -> Result<List<CheckedProc>, NoMemory>
    requires counted { AreCounted (map placed stmts.now) counts.now }
    requires names { names.now ≡ (front_of (map placed stmts.now)).table }
    requires checked { AreCheckedProcedures (map placed stmts.now) links.now }
    ensures { IfOk result (λ ps. map text_procedure ps ≡ procedures_from (map placed stmts.now) links.now 1 (procedure_names (map placed stmts.now))) }
{
    let mut procs = List::new(alloc);
    for (i, stmt) in stmts.iter().enumerate() {
        if let Some(name) = named(stmt) {
            let span = span_of(counts, stmts, procs.len() + 1, i);
            let setting = Setting::new(names, counts, stmts, span.owner, i);
            let proc = build_procedure(alloc, &setting, links, span, name)?;
            procs.push(proc)?;
        }
    }
    Ok(procs)
}
