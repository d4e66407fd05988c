ghost use Rattle.std.specs.Prelude.{◌≡◌, map, IfOk};
ghost use Rattle.il_core.specs.Statement.{placed};
ghost use Rattle.il_types.specs.Counted.{AreCounted};
ghost use Rattle.il_types.specs.Names.{front_of};
ghost use Rattle.il_syntax.specs.Order.{IsInOrder};
ghost use Rattle.il_called.specs.Called.{called_of};
ghost use Rattle.call_rules.specs.CalledText.{called_text};
ghost use Rattle.call_rules.specs.Parameters.{AreParameters};

use crate::procedures::called_procedures;
use call_rules::Parameters;
use il_built::{profile_of, title_of};
use il_called::CalledProc;
use il_core::{Link, List, Name, NoMemory, Stmt};
use il_types::{Counts, Names};
use std::alloc::Global;

/// The text with calls of statements in order, from what `called_procedures` takes: its title, its procedures and its profile, which is
/// 2 where a statement has a WRAP and else 1. An error comes where memory runs out. Linear in the text but for the look-ups by name.
pub fn call_text(
    alloc: Global,
    names: &Names,
    counts: &[Counts],
    parameters: &Parameters,
    stmts: &[Stmt],
    links: &[Link],
) -> Result<(Name, List<CalledProc>, u8), NoMemory>
    requires order { IsInOrder (map placed stmts.now) }
    requires counted { AreCounted (map placed stmts.now) counts.now }
    requires names { names.now ≡ (front_of (map placed stmts.now)).table }
    requires parameters { AreParameters (map placed stmts.now) parameters.now }
    ensures { IfOk result (λ t. called_of (record { title = t.0; profile = t.2; procs = t.1 }) ≡ called_text (map placed stmts.now) links.now) }
{
    let procs = called_procedures(alloc, names, counts, parameters, stmts, links)?;
    Ok((title_of(stmts), procs, profile_of(stmts)))
}
