//! The first of the new names of a CALL that is a variable of the procedure in which it stands.
ghost use Rattle.std.specs.Prelude.{◌≡◌, ◌+◌, ◌-◌, ◌<◌, ◌^◌, length, take, drop, None, IfOk};
ghost use Rattle.il_called.specs.Called.{WrittenProcedure};
ghost use Rattle.call_rules.specs.Callee.{procedure_named};
ghost use Rattle.call_names.specs.Outlines.{AreOutlined};
ghost use Rattle.call_names.specs.Sorted.{AreAllSorted};
ghost use Rattle.call_names.specs.Gathered.{own_names, clash_found};

use crate::outline::Outline;
use crate::search::first_new;
use call_rules::procedure_named;
use il_core::{List, Name, NoMemory};
use il_types::Setting;
use std::alloc::Global;

/// The first of the new names that a CALL in a procedure brings, behind so many other CALLs of the procedure, that is one of its variables.
/// Before all procedures there is none.
pub(crate) fn clash(
    alloc: Global,
    outlines: &[Outline],
    own: &[List<Name>],
    setting: &Setting<'_>,
    owner: usize,
    calls: usize,
    name: &Name,
) -> Result<Option<Name>, NoMemory>
    requires inside { owner < length outlines.now }
    requires own { AreAllSorted outlines.now own.now }
    requires room { calls + 1 < 2 ^ 64 }
    ensures before { IfOk result (λ o. owner ≡ 0 → o ≡ None) }
    ensures found { IfOk result (λ o. (procs : List WrittenProcedure) → 0 < owner → AreOutlined procs (take (owner - 1) (drop 1 outlines.now)) → o ≡ clash_found procs (own_names outlines.now owner) (calls + 1) (procedure_named setting.now name.now)) }
{
    if owner == 0 {
        return Ok(None);
    }
    let number = match procedure_named(setting, name) {
        None => return Ok(None),
        Some(number) => number,
    };
    first_new(
        alloc,
        &outlines[1..owner],
        number.saturating_sub(1),
        &[],
        calls + 1,
        own[owner].as_slice(),
    )
}
