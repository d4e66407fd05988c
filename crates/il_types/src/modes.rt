ghost use Rattle.std.specs.Prelude.{◌≡◌};
ghost use Rattle.il_core.specs.Statement.{statement_of};
ghost use Rattle.il_core.specs.Tree.{tree_of};
ghost use Rattle.il_types.specs.Modes.{mode_in, mode_of, may_name, may_recall, may_assign, keeps_modes, is_allowed};

use crate::setting::{Setting, declaration};
use il_core::{Form, Mode, Name, RawExpr};

/// Where an expression stands.
#[derive(Clone, Copy, PartialEq, Eq)]
pub enum Part {
    /// In PRE.
    Precondition,
    /// In POST.
    Postcondition,
    /// In ASSERT.
    Assertion,
    /// In any other statement.
    Action,
}

fn mode_in(form: &Form) -> Option<Mode>
    ensures { result ≡ mode_in (statement_of form.now) }
{
    match form {
        Form::Variable(mode, _, _) => Some(*mode),
        _ => None,
    }
}

/// The mode of the variable that a name stands for where it is used; `None` where it stands for none. One or two look-ups.
pub fn mode_of(setting: &Setting<'_>, name: &Name) -> Option<Mode>
    ensures { result ≡ mode_of setting.now name.now }
{
    match declaration(setting, name) {
        None => None,
        Some((_, form)) => mode_in(form),
    }
}

fn may_name(part: Part, mode: Option<Mode>) -> bool
    ensures { result ≡ may_name part mode }
{
    match part {
        Part::Precondition => match mode {
            Some(Mode::Output) => false,
            Some(Mode::Local) => false,
            _ => true,
        },
        Part::Postcondition => match mode {
            Some(Mode::Local) => false,
            _ => true,
        },
        _ => true,
    }
}

fn may_recall(part: Part, mode: Option<Mode>) -> bool
    ensures { result ≡ may_recall part mode }
{
    match part {
        Part::Action => false,
        _ => match mode {
            Some(Mode::InOut) => true,
            _ => false,
        },
    }
}

/// Whether the mode of a name lets it be assigned: any but IN. A name that is no variable's has no mode, and is left to the typing rules.
pub fn may_assign(mode: Option<Mode>) -> bool
    ensures { result ≡ may_assign mode }
{
    match mode {
        Some(Mode::Input) => false,
        _ => true,
    }
}

/// Whether the modes allow each use of a variable in an expression: OLD names an INOUT variable and stands in PRE, POST and ASSERT alone,
/// PRE names no OUT or LOCAL variable, POST no LOCAL one. Linear in the expression but for the look-ups by name.
pub fn keeps_modes(setting: &Setting<'_>, part: Part, expr: &RawExpr) -> bool
    ensures { result ≡ keeps_modes setting.now part (tree_of expr.now) }
{
    match expr {
        RawExpr::Num(_) => true,
        RawExpr::Ident(name) => may_name(part, mode_of(setting, name)),
        RawExpr::Old(name) => may_recall(part, mode_of(setting, name)),
        RawExpr::Truth(_) => true,
        RawExpr::Neg(inner) => keeps_modes(setting, part, inner),
        RawExpr::Not(inner) => keeps_modes(setting, part, inner),
        RawExpr::Binary(_, left, right) => {
            keeps_modes(setting, part, left) && keeps_modes(setting, part, right)
        }
    }
}

/// Whether a statement keeps the rules of modes.
pub(crate) fn is_allowed(setting: &Setting<'_>, form: &Form) -> bool
    ensures { result ≡ is_allowed setting.now (statement_of form.now) }
{
    match form {
        Form::Pre(expr) => keeps_modes(setting, Part::Precondition, expr),
        Form::Post(expr) => keeps_modes(setting, Part::Postcondition, expr),
        Form::Assign(name, expr) => {
            may_assign(mode_of(setting, name)) && keeps_modes(setting, Part::Action, expr)
        }
        Form::If(expr) => keeps_modes(setting, Part::Action, expr),
        Form::ExitWhen(expr) => keeps_modes(setting, Part::Action, expr),
        Form::Assert(expr) => keeps_modes(setting, Part::Assertion, expr),
        _ => true,
    }
}
