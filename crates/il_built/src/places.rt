ghost use Rattle.std.specs.Prelude.{◌≡◌};
ghost use Rattle.il_core.specs.Statement.{variable};
ghost use Rattle.il_types.specs.Built.{place_of};

use il_core::{Mode, Name, Place, TypeUse};
use il_types::{Setting, is_flag, range_of_use};

/// The place of the variable that a statement declares with this mode, name and type, in the setting of that statement. The time is
/// that of a few look-ups by name.
pub(crate) fn build_place(setting: &Setting<'_>, mode: Mode, name: Name, used: &TypeUse) -> Place
    ensures { result ≡ place_of setting.now (variable mode name used.now) }
{
    let range = range_of_use(setting, used);
    let flag = is_flag(setting, used);
    Place {
        name,
        mode,
        old: false,
        flag,
        wrap: range.wrap,
        least: range.least,
        greatest: range.greatest,
    }
}
