//! The outlines of the procedures of a text, gathered from its statements.
ghost use Rattle.std.specs.Prelude.{◌≡◌, map, IfOk};
ghost use Rattle.std.specs.Option.{option_to_list};
ghost use Rattle.il_core.specs.Statement.{placed, statement_of};
ghost use Rattle.il_core.specs.Run.{is_inout};
ghost use Rattle.il_types.specs.Counted.{AreCounted};
ghost use Rattle.il_types.specs.Names.{FindAlike, front_of};
ghost use Rattle.call_rules.specs.Parameters.{is_procedure};
ghost use Rattle.call_names.specs.Gathered.{declared_variable, called_in, AreGathered, callee_named};

use crate::outline::{Outline, Variable};
use call_rules::procedure_named;
use il_core::{Form, List, Mode, Name, NoMemory, Stmt};
use il_types::{Counts, Names, Setting, counts_before};
use std::alloc::Global;

/// Whether a variable of a mode has an OLD copy.
fn is_inout(mode: Mode) -> bool
    ensures { result ≡ is_inout mode }
{
    match mode {
        Mode::Input => false,
        Mode::InOut => true,
        Mode::Output => false,
        Mode::Local => false,
    }
}

/// The variable that a statement declares.
fn declared_variable(form: &Form) -> Option<Variable>
    ensures { option_to_list result ≡ declared_variable (statement_of form.now) }
{
    match form {
        Form::Variable(mode, name, _) => Some(Variable {
            name: *name,
            copied: is_inout(*mode),
        }),
        _ => None,
    }
}

/// The number of the procedure that a name stands for in a CALL, counted from 0; that of the procedure of the CALL itself where the name
/// stands for none.
fn callee_named(setting: &Setting<'_>, owner: usize, name: &Name) -> usize
    requires { owner ≡ setting.now.owner }
    ensures { result ≡ callee_named setting.now name.now }
{
    match procedure_named(setting, name) {
        None => owner.saturating_sub(1),
        Some(number) => number.saturating_sub(1),
    }
}

/// The number of the procedure that a statement calls, counted from 0.
fn called_in(setting: &Setting<'_>, owner: usize, form: &Form) -> Option<usize>
    requires { owner ≡ setting.now.owner }
    ensures { option_to_list result ≡ called_in setting.now (statement_of form.now) }
{
    match form {
        Form::Call(name, _) => Some(callee_named(setting, owner, name)),
        _ => None,
    }
}

/// Whether a statement begins a procedure.
fn is_procedure(form: &Form) -> bool
    ensures { result ≡ is_procedure (statement_of form.now) }
{
    matches!(form, Form::Proc(_))
}

/// The outlines of the procedures of a text: that of number k is the one of the k-th procedure, counted from 1, and number 0 has what
/// stands before all procedures. An error comes where memory runs out. The time is linear in the text but for the look-ups by name.
pub(crate) fn outlines_of(
    alloc: Global,
    names: &Names,
    before: &[Counts],
    stmts: &[Stmt],
) -> Result<Vec<Outline>, NoMemory>
    requires counted { AreCounted (map placed stmts.now) before.now }
    requires names { FindAlike names.now (front_of (map placed stmts.now)).table }
    ensures { IfOk result (λ v. AreGathered (map placed stmts.now) v.items) }
{
    let mut outlines = Vec::new(alloc);
    let mut variables = List::new(alloc);
    let mut calls = List::new(alloc);
    for (i, stmt) in stmts.iter().enumerate() {
        let owner = counts_before(before, stmts, i).procedures;
        let setting = Setting::new(names, before, stmts, owner, i);
        if let Some(variable) = declared_variable(&stmt.form) {
            variables.push(variable)?;
        }
        if let Some(callee) = called_in(&setting, owner, &stmt.form) {
            calls.push(callee)?;
        }
        if is_procedure(&stmt.form) {
            outlines.push(Outline { variables, calls })?;
            variables = List::new(alloc);
            calls = List::new(alloc);
        }
    }
    outlines.push(Outline { variables, calls })?;
    Ok(outlines)
}
