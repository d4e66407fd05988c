//! Bounds of what variables are declared with, which no rule has to ask for: a name has at most 40 bytes, and the ends of a range are
//! numbers of 64 bits.
ghost use Rattle.std.specs.Prelude.{◌≡◌, ◌≤◌, length, map, Some};
ghost use Rattle.il_core.specs.Bounds.{AreSmall};
ghost use Rattle.il_core.specs.Statement.{placed, statement_of};
ghost use Rattle.il_types.specs.Counted.{AreCounted};
ghost use Rattle.il_types.specs.Names.{front_of};
ghost use Rattle.call_sound.specs.Laws.{HaveShortNames, HaveSmallBounds};
ghost use Rattle.il_calls.specs.Small.{IsSmall};

use il_core::{Form, Name, Stmt};
use il_types::{Counts, Names, Setting, counts_before, range_of_use};

/// A name is short. It is read for that alone.
fn name_is_short(name: &Name)
    ensures { length name.now ≤ 40 }
{
    let _bytes = name.as_bytes();
}

/// A range between numbers of 64 bits is small.
fn range_is_small(least: i64, greatest: i64)
    ensures { AreSmall (record { low = least; high = greatest }) }
{}

/// The variable that a statement declares has a short name and a small range.
fn variable_is_small(setting: &Setting<'_>, form: &Form)
    ensures { IsSmall setting.now (statement_of form.now) }
{
    match form {
        Form::Variable(_, name, used) => {
            let range = range_of_use(setting, used);
            name_is_short(name);
            range_is_small(range.least, range.greatest);
        }
        _ => {}
    }
}

/// The variables of a text have short names and small ranges. Nothing is answered; the time is linear in the text but for the look-ups by
/// name.
pub(crate) fn variables_are_small(names: &Names, before: &[Counts], stmts: &[Stmt])
    requires counted { AreCounted (map placed stmts.now) before.now }
    requires names { names.now ≡ (front_of (map placed stmts.now)).table }
    ensures short { HaveShortNames (map placed stmts.now) }
    ensures small { HaveSmallBounds (map placed stmts.now) }
{
    for (i, stmt) in stmts.iter().enumerate() {
        let owner = counts_before(before, stmts, i).procedures;
        let setting = Setting::new(names, before, stmts, owner, i);
        variable_is_small(&setting, &stmt.form);
    }
}
