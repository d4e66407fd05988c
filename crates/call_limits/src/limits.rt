ghost use Rattle.std.specs.Prelude.{◌≡◌, List, map, IfOk};
ghost use Rattle.il_core.specs.Statement.{placed};
ghost use Rattle.il_core.specs.declared.statement.Link.{Link};
ghost use Rattle.il_types.specs.Counted.{AreCounted};
ghost use Rattle.il_types.specs.Names.{front_of};
ghost use Rattle.il_types.specs.Rules.{IsRefused};
ghost use Rattle.call_rules.specs.Limits.{excess_at};

use crate::extent::{excess, extent_behind, no_extent};
use crate::measures::end_procedure;
use il_core::{NoMemory, Refusal, Stmt};
use il_types::{Counts, Names, Setting, counts_behind, no_counts, refusal_of};
use std::alloc::Global;

/// The first statement behind which there are more than 64 procedures, or the latest procedure has more than 1,000 lines or 64 places
/// (`Code::TooMany`); `None` exactly where there is no such statement. Each CALL of an earlier procedure counts as the lines that it
/// becomes where it fits and the places that it brings, and any other as one line; no call is expanded. An error comes where memory runs
/// out. The time is linear in the text but for the look-ups by name.
pub fn first_past_limits(
    alloc: Global,
    names: &Names,
    before: &[Counts],
    stmts: &[Stmt],
) -> Result<Option<Refusal>, NoMemory>
    requires counted { AreCounted (map placed stmts.now) before.now }
    requires names { names.now ≡ (front_of (map placed stmts.now)).table }
    ensures { IfOk result (λ o. (links : List Link) → IsRefused (excess_at (map placed stmts.now) links) (map placed stmts.now) o) }
{
    let mut table = Vec::new(alloc);
    let mut counts = no_counts();
    let mut extent = no_extent();
    for (i, stmt) in stmts.iter().enumerate() {
        let setting = Setting::new(names, before, stmts, counts.procedures, i);
        end_procedure(&mut table, counts, extent, &stmt.form)?;
        extent = extent_behind(&setting, table.as_slice(), extent, &stmt.form);
        counts = counts_behind(counts, i, &stmt.form);
        match excess(counts, extent) {
            None => {}
            Some(found) => {
                return Ok(Some(refusal_of(found, stmt.place)));
            }
        }
    }
    Ok(None)
}
