ghost use Rattle.std.specs.Prelude.{◌≡◌};
ghost use Rattle.il_core.specs.Statement.{statement_of};
ghost use Rattle.il_types.specs.Ranges.{is_not_above, holds_some, has_range};

use crate::setting::Setting;
use crate::typing::bound_value;
use il_core::{Bound, Form, TypeUse};

fn is_not_above(least: Option<i64>, greatest: Option<i64>) -> bool
    ensures { result ≡ is_not_above least greatest }
{
    match least {
        None => true,
        Some(least) => match greatest {
            None => true,
            Some(greatest) => least <= greatest,
        },
    }
}

fn holds_some(setting: &Setting<'_>, least: &Bound, greatest: &Bound) -> bool
    ensures { result ≡ holds_some setting.now least.now greatest.now }
{
    is_not_above(bound_value(setting, least), bound_value(setting, greatest))
}

/// Whether the range of a statement, where it has one, holds a value.
pub(crate) fn has_range(setting: &Setting<'_>, form: &Form) -> bool
    ensures { result ≡ has_range setting.now (statement_of form.now) }
{
    match form {
        Form::RangeType(_, least, greatest) => holds_some(setting, least, greatest),
        Form::WrapType(_, least, greatest) => holds_some(setting, least, greatest),
        Form::Variable(_, _, TypeUse::Range(least, greatest)) => holds_some(
            setting, least, greatest,
        ),
        Form::Variable(_, _, TypeUse::Wrap(least, greatest)) => holds_some(
            setting, least, greatest,
        ),
        _ => true,
    }
}
