ghost use Rattle.std.specs.Prelude.{◌≡◌, ◌<◌, map, length};
ghost use Rattle.std.specs.Option.{option_and_then};
ghost use Rattle.il_core.specs.Statement.{statement_of, placed};
ghost use Rattle.il_types.specs.Names.{counts_at};
ghost use Rattle.il_types.specs.Counted.{AreCounted};
ghost use Rattle.il_types.specs.Built.{bound_or_zero, plain, range_between, range_in, range_of_use, where_declared, is_flag};

use crate::counts::Counts;
use crate::setting::{Setting, declaration};
use crate::typing::{bound_value, is_truth, kind_of_use};
use il_core::{Bound, Form, Stmt, TypeUse};

/// The least and the greatest value of a type, and whether an assignment wraps into them.
#[derive(Clone, Copy, PartialEq, Eq)]
pub struct Range {
    /// The least value.
    pub least: i64,
    /// The greatest value.
    pub greatest: i64,
    /// Whether an assignment wraps.
    pub wrap: bool,
}

/// The range of a type that is no wrapping one.
fn plain(least: i64, greatest: i64) -> Range
    ensures { result ≡ plain least greatest }
{
    Range {
        least,
        greatest,
        wrap: false,
    }
}

/// The counts in front of statement `at`, of the list of all counts. Constant time.
pub fn counts_before(counts: &[Counts], _stmts: &[Stmt], at: usize) -> Counts
    requires counted { AreCounted (map placed _stmts.now) counts.now }
    requires within { at < length _stmts.now }
    ensures { result ≡ counts_at (map placed _stmts.now) at }
{
    counts[at]
}

fn bound_or_zero(setting: &Setting<'_>, bound: &Bound) -> i64
    ensures { result ≡ bound_or_zero setting.now bound.now }
{
    bound_value(setting, bound).unwrap_or(0)
}

fn range_between(setting: &Setting<'_>, wrap: bool, least: &Bound, greatest: &Bound) -> Range
    ensures { result ≡ range_between setting.now wrap least.now greatest.now }
{
    Range {
        least: bound_or_zero(setting, least),
        greatest: bound_or_zero(setting, greatest),
        wrap,
    }
}

/// The range of the type that a statement declares; `None` where it declares none.
fn range_in(setting: &Setting<'_>, spot: (usize, usize), form: &Form) -> Option<Range>
    requires { spot.0 < length setting.now.stmts }
    ensures { result ≡ range_in setting.now spot (statement_of form.now) }
{
    let setting = setting.where_declared(spot);
    match form {
        Form::RangeType(_, least, greatest) => Some(range_between(
            &setting, false, least, greatest,
        )),
        Form::WrapType(_, least, greatest) => Some(range_between(&setting, true, least, greatest)),
        Form::EnumType(_, values) => {
            // the length of a slice is below 2^63, so its last index is an i64
            let greatest = values.as_slice().len().saturating_sub(1);
            Some(plain(0, greatest as i64))
        }
        _ => None,
    }
}

/// The range of a type where it is used: BOOL has 0 and 1, an enumeration of n values 0 to n - 1; 0
/// stands for what is not declared. A few look-ups by name.
pub fn range_of_use(setting: &Setting<'_>, used: &TypeUse) -> Range
    ensures { result ≡ range_of_use setting.now used.now }
{
    match used {
        TypeUse::Bool => plain(0, 1),
        TypeUse::Named(name) => match declaration(setting, name) {
            None => plain(0, 0),
            Some((spot, form)) => match range_in(setting, spot, form) {
                None => plain(0, 0),
                Some(range) => range,
            },
        },
        TypeUse::Range(least, greatest) => range_between(setting, false, least, greatest),
        TypeUse::Wrap(least, greatest) => range_between(setting, true, least, greatest),
    }
}

/// Whether a variable of a type holds truth values, where the type is used. One look-up by name.
pub fn is_flag(setting: &Setting<'_>, used: &TypeUse) -> bool
    ensures { result ≡ is_flag setting.now used.now }
{
    is_truth(kind_of_use(setting, used))
}
