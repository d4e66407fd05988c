ghost use Rattle.std.specs.Prelude.{◌≡◌, ◌≤◌, ◌||◌, ◌++◌, ◌∷◌, [], map, length, is_none, Some, None, IfOk, OnOk, if◌then◌else◌};
ghost use Rattle.il_core.specs.Statement.{statement_of, placed};
ghost use Rattle.il_blocks.specs.Block.{IsFirst};
ghost use Rattle.il_blocks.specs.BlockLabel.{begins, label_of, target_of, found, enlisted, is_other, is_repeat, is_lost, IsTable, IsMislabelled};

use il_core::{Form, Name, NoMemory, Stmt};
use indexmap::IndexMap;
use std::alloc::Global;

/// The number of procedures that a statement begins.
pub(crate) fn begins(form: &Form) -> usize
    ensures value { result ≡ begins (statement_of form.now) }
    ensures bound { result ≤ 1 }
{
    match form {
        Form::Proc(_) => 1,
        _ => 0,
    }
}

fn label_of(form: &Form) -> Option<Name>
    ensures { result ≡ label_of (statement_of form.now) }
{
    match form {
        Form::Label(name) => Some(*name),
        _ => None,
    }
}

fn target_of(form: &Form) -> Option<Name>
    ensures { result ≡ target_of (statement_of form.now) }
{
    match form {
        Form::Goto(name) => Some(*name),
        _ => None,
    }
}

/// The number of the LABEL with a name in a procedure.
pub(crate) fn found(
    labels: &IndexMap<(usize, Name), usize>,
    inside: usize,
    name: Name,
) -> Option<usize>
    ensures { result ≡ found inside name labels.now.entries }
{
    labels.get(&(inside, name)).copied()
}

/// Adds the label that a statement is, if its name is new in its procedure.
fn enlist(
    labels: &mut IndexMap<(usize, Name), usize>,
    inside: usize,
    at: usize,
    form: &Form,
) -> Result<(), NoMemory>
    ensures { OnOk result (labels.new.entries ≡ enlisted (label_of (statement_of form.now)) inside at labels.old.entries) }
{
    let Some(name) = label_of(form) else {
        return Ok(());
    };
    match found(labels, inside, name) {
        Some(_) => Ok(()),
        None => {
            labels.insert((inside, name), at)?;
            Ok(())
        }
    }
}

/// The first of the labels with each name in each procedure, with the numbers of their statements.
pub(crate) fn label_table(
    alloc: Global,
    stmts: &[Stmt],
) -> Result<IndexMap<(usize, Name), usize>, NoMemory>
    ensures { IfOk result (λ labels. IsTable (map placed stmts.now) (length stmts.now) labels.entries) }
{
    let mut labels = IndexMap::new(alloc);
    let mut inside = 0;
    for (i, stmt) in stmts.iter().enumerate() {
        enlist(&mut labels, inside, i, &stmt.form)?;
        inside += begins(&stmt.form);
    }
    Ok(labels)
}

/// Whether a label, if there is one, has another as the first with its name in its procedure.
fn is_repeat(
    labels: &IndexMap<(usize, Name), usize>,
    label: Option<Name>,
    inside: usize,
    at: usize,
) -> bool
    ensures { result ≡ is_repeat label inside at labels.now.entries }
{
    let Some(name) = label else {
        return false;
    };
    match found(labels, inside, name) {
        Some(first) => first != at,
        None => true,
    }
}

/// Whether a target, if there is one, is no label of its procedure.
fn is_lost(labels: &IndexMap<(usize, Name), usize>, target: Option<Name>, inside: usize) -> bool
    ensures { result ≡ is_lost target inside labels.now.entries }
{
    let Some(name) = target else {
        return false;
    };
    found(labels, inside, name).is_none()
}

/// Whether a statement is a repeated LABEL or a GOTO without one.
fn is_mislabelled(
    labels: &IndexMap<(usize, Name), usize>,
    inside: usize,
    at: usize,
    form: &Form,
) -> bool
    ensures { result ≡ (is_repeat (label_of (statement_of form.now)) inside at labels.now.entries || is_lost (target_of (statement_of form.now)) inside labels.now.entries) }
{
    is_repeat(labels, label_of(form), inside, at) || is_lost(labels, target_of(form), inside)
}

/// The number of the first statement that is a repeated LABEL or a GOTO without one.
pub(crate) fn first_mislabelled(
    labels: &IndexMap<(usize, Name), usize>,
    stmts: &[Stmt],
) -> Option<usize>
    requires { IsTable (map placed stmts.now) (length stmts.now) labels.now.entries }
    ensures { IsFirst (IsMislabelled (map placed stmts.now)) result }
{
    let mut inside = 0;
    for (i, stmt) in stmts.iter().enumerate() {
        if is_mislabelled(labels, inside, i, &stmt.form) {
            return Some(i);
        }
        inside += begins(&stmt.form);
    }
    None
}
