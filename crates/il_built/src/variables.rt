ghost use Rattle.std.specs.Prelude.{◌≡◌, ◌+◌, ◌<◌, ◌++◌, map, filter, length, IfOk};
ghost use Rattle.std.specs.Option.{option_to_list};
ghost use Rattle.il_core.specs.Checked.{is_copied, old_copy};
ghost use Rattle.il_core.specs.Statement.{statement_of};
ghost use Rattle.il_types.specs.Names.{front_of};
ghost use Rattle.il_built.specs.CheckedText.{declared_place, variables_of, with_copies, places_of};
ghost use Rattle.il_built.specs.Span.{AreStatementsOf};

use crate::places::build_place;
use crate::spans::Span;
use il_core::{Form, List, Mode, NoMemory, Place};
use il_types::Setting;
use std::alloc::Global;

/// The place that a statement declares.
fn declared_place(setting: &Setting<'_>, form: &Form) -> Option<Place>
    ensures { option_to_list result ≡ declared_place setting.now (statement_of form.now) }
{
    match form {
        Form::Variable(mode, name, used) => Some(build_place(setting, *mode, *name, used)),
        _ => None,
    }
}

/// The places of the variables of the procedure with these statements.
fn variables_of(alloc: Global, setting: &Setting<'_>, span: Span) -> Result<Vec<Place>, NoMemory>
    requires names { setting.now.table ≡ (front_of setting.now.stmts).table }
    requires statements { AreStatementsOf setting.now.stmts span.owner span.from span.to }
    ensures { IfOk result (λ v. v.items ≡ variables_of setting.now.stmts span.owner) }
{
    let mut places = Vec::new(alloc);
    for i in span.from..span.to {
        let here = setting.in_procedure(span.owner, i);
        if let Some(place) = declared_place(&here, &here.stmt().form) {
            places.push(place)?;
        }
    }
    Ok(places)
}

/// The OLD copies of the INOUT ones of some variables.
fn copies_of(alloc: Global, variables: &[Place]) -> Result<Vec<Place>, NoMemory>
    ensures { IfOk result (λ v. v.items ≡ map old_copy (filter is_copied variables.now)) }
{
    let copies = variables
        .iter()
        .filter(|place| matches!(place.mode, Mode::InOut))
        .map(|place| Place {
            old: true,
            ..*place
        })
        .collect(alloc)?;
    Ok(copies)
}

/// The places of the procedure with these statements: its variables in the order of their declarations, and then the OLD copies of
/// the INOUT ones. The setting is that of any statement of the text. An error comes where memory runs out. Linear but for the look-ups
/// by name.
pub fn places_of(alloc: Global, setting: &Setting<'_>, span: Span) -> Result<List<Place>, NoMemory>
    requires names { setting.now.table ≡ (front_of setting.now.stmts).table }
    requires statements { AreStatementsOf setting.now.stmts span.owner span.from span.to }
    ensures { IfOk result (λ v. v ≡ places_of setting.now.stmts span.owner) }
{
    let mut places = variables_of(alloc, setting, span)?;
    let copies = copies_of(alloc, places.as_slice())?;
    places.extend_from_slice(copies.as_slice())?;
    Ok(List::from_vec(places))
}
