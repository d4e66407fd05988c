//! The first name that a text with calls declares twice.
ghost use Rattle.std.specs.Prelude.{◌≡◌, ◌+◌, ◌-◌, ◌<◌, ◌^◌, List, map, length, take, drop, IfOk};
ghost use Rattle.il_core.specs.Statement.{placed, statement_of};
ghost use Rattle.il_core.specs.declared.statement.Link.{Link};
ghost use Rattle.il_called.specs.Called.{WrittenProcedure};
ghost use Rattle.il_types.specs.Counted.{AreCounted};
ghost use Rattle.il_types.specs.Names.{FindAlike, front_of};
ghost use Rattle.il_types.specs.Rules.{IsRefused};
ghost use Rattle.call_rules.specs.Clash.{twice_at};
ghost use Rattle.call_names.specs.Outlines.{AreOutlined};
ghost use Rattle.il_types.specs.Redeclaration.{IsFirstRedeclaration};
ghost use Rattle.call_names.specs.Sorted.{AreAllSorted};
ghost use Rattle.call_names.specs.Gathered.{clash_in, calls_behind, redeclared_at};

use crate::clash::clash;
use crate::gathering::outlines_of;
use crate::outline::Outline;
use crate::sorted::all_sorted;
use il_core::{Code, Form, List, Name, NoMemory, Refusal, Stmt};
use il_types::{Counts, Names, Redeclaration, Setting, counts_before, naming, refusal_of};
use std::alloc::Global;

/// The first of the new names that a statement brings, behind so many CALLs of its procedure, that is a variable of the procedure.
fn clash_in(
    alloc: Global,
    outlines: &[Outline],
    own: &[List<Name>],
    setting: &Setting<'_>,
    owner: usize,
    calls: usize,
    form: &Form,
) -> Result<Option<Name>, NoMemory>
    requires owner { owner ≡ setting.now.owner }
    requires inside { owner < length outlines.now }
    requires own { AreAllSorted outlines.now own.now }
    requires room { calls + 1 < 2 ^ 64 }
    ensures { IfOk result (λ o. (procs : List WrittenProcedure) → AreOutlined procs (take (owner - 1) (drop 1 outlines.now)) → o ≡ clash_in procs outlines.now setting.now calls (statement_of form.now)) }
{
    match form {
        Form::Call(name, _) => clash(alloc, outlines, own, setting, owner, calls, name),
        _ => Ok(None),
    }
}

/// The CALLs of the latest procedure behind a statement.
fn calls_behind(calls: usize, form: &Form) -> usize
    requires { calls + 1 < 2 ^ 64 }
    ensures { result ≡ calls_behind calls (statement_of form.now) }
{
    match form {
        Form::Proc(_) => 0,
        Form::Call(_, _) => calls + 1,
        _ => calls,
    }
}

/// The name that a statement of a number declares although it is taken, where it is the first such statement.
fn redeclared_at(redeclaration: &Option<Redeclaration>, at: usize) -> Option<Name>
    ensures { result ≡ redeclared_at redeclaration.now at }
{
    match redeclaration {
        None => None,
        Some(it) => if it.at == at { Some(it.name) } else { None },
    }
}

/// The refusal of a text with calls by its names (`Code::Twice`, with the name), or `None` exactly where none is declared twice: the first
/// statement that declares a name that is taken, or that CALLs an earlier procedure of which a place's new name is a variable of the
/// caller. Given is the first statement of the former kind, with the name; the declarations given may leave out those of a name that its
/// scope has already. An error comes where memory runs out. No call is expanded. The names of each procedure are
/// sorted once, and a CALL looks among those of its procedure by binary search: where none begins as its new names do, this takes a time
/// logarithmic in their number. Only the names that do begin so are compared with the variables and the calls of the procedure called, and
/// a call there is searched only where one of them goes on with its number. So the time is that of sorting the names, and for each name
/// that begins as new names do, that of passing once over the procedures in which it is looked for.
pub fn first_twice(
    alloc: Global,
    names: &Names,
    before: &[Counts],
    stmts: &[Stmt],
    redeclaration: Option<Redeclaration>,
) -> Result<Option<Refusal>, NoMemory>
    requires counted { AreCounted (map placed stmts.now) before.now }
    requires names { FindAlike names.now (front_of (map placed stmts.now)).table }
    requires redeclaration { IsFirstRedeclaration (map placed stmts.now) redeclaration }
    ensures { IfOk result (λ o. (links : List Link) → IsRefused (twice_at (map placed stmts.now) links) (map placed stmts.now) o) }
{
    let outlines = outlines_of(alloc, names, before, stmts)?;
    let own = all_sorted(alloc, outlines.as_slice())?;
    let mut calls = 0;
    for (i, stmt) in stmts.iter().enumerate() {
        let owner = counts_before(before, stmts, i).procedures;
        let setting = Setting::new(names, before, stmts, owner, i);
        match clash_in(
            alloc,
            outlines.as_slice(),
            own.as_slice(),
            &setting,
            owner,
            calls,
            &stmt.form,
        )? {
            Some(name) => return Ok(Some(refusal_of(naming(Code::Twice, name), stmt.place))),
            None => {}
        }
        match redeclared_at(&redeclaration, i) {
            Some(name) => return Ok(Some(refusal_of(naming(Code::Twice, name), stmt.place))),
            None => {}
        }
        calls = calls_behind(calls, &stmt.form);
    }
    Ok(None)
}
