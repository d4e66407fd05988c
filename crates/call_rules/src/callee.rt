ghost use Rattle.std.specs.Prelude.{◌≡◌, ◌<◌, ◌+◌, length};
ghost use Rattle.il_types.specs.Names.{counts_at};
ghost use Rattle.call_rules.specs.Callee.{procedure_named, parameters_named};
ghost use Rattle.call_rules.specs.Parameters.{AreParameters};

use crate::parameters::{Parameter, Parameters};
use il_core::{Form, Name};
use il_types::{Setting, declaration};

/// The number of the procedure whose PROC is statement `at`, counted from 1.
fn number_at(setting: &Setting<'_>, at: usize) -> usize
    requires { at < length setting.now.stmts }
    ensures { result ≡ (counts_at setting.now.stmts at).procedures + 1 }
{
    setting.counts_before(at).procedures + 1
}

/// The number of the procedure, counted from 1, that a name stands for where it is used; `None` where it stands for none. One or two
/// look-ups by name.
pub fn procedure_named(setting: &Setting<'_>, name: &Name) -> Option<usize>
    ensures { result ≡ procedure_named setting.now name.now }
{
    match declaration(setting, name) {
        Some((spot, Form::Proc(_))) => Some(number_at(setting, spot.0)),
        _ => None,
    }
}

/// The parameters of the procedure that a name stands for where it is used, none where it stands for none. One or two look-ups by name.
pub fn parameters_named<'a>(
    setting: &Setting<'_>,
    parameters: &'a Parameters,
    name: &Name,
) -> &'a [Parameter]
    requires { AreParameters setting.now.stmts parameters.now }
    ensures { result.now ≡ parameters_named setting.now name.now }
{
    match procedure_named(setting, name) {
        None => &[],
        Some(number) => parameters.of(number),
    }
}
