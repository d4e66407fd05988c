ghost use Rattle.std.specs.Prelude.{map, IfOk};
ghost use Rattle.il_core.specs.Statement.{placed};
ghost use Rattle.il_types.specs.Rules.{Answers, OneAnswer};

use crate::counts::all_counts;
use crate::names::declare_all;
use crate::rules::first_of_rules;
use il_core::{NoMemory, Refusal, Stmt, TextEnd};
use std::alloc::Global;

/// The refusal of a text by the rules of names, types, modes, ranges, bounds and limits, or `None` exactly where it keeps them all.
/// Each rule is checked over the whole text before the next one: a name is declared once (`Code::Twice`, with the name), a name
/// that is used is declared (`Unknown`, with the name), each name and expression has the type that is needed (`Typing`), the modes
/// allow each use (`Access`), each range holds a value (`EmptyRange`), no part of an expression has static bounds outside 2^126 on
/// either side of 0 (`Wide`), and there are at most 64 procedures and in each at most 1,000 lines and 64 places (`TooMany`). The place
/// is that of the first statement that breaks the rule. An error comes where memory runs out. The time is linear in the text but for
/// the look-ups by name.
pub fn first_refusal(alloc: Global, stmts: &[Stmt]) -> Result<Option<Refusal>, NoMemory>
    ensures { IfOk result (Answers (map placed stmts.now)) }
{
    match declare_all(alloc, stmts) {
        Ok(names) => {
            let before = all_counts(alloc, stmts)?;
            Ok(first_of_rules(&names, &before, stmts))
        }
        Err(TextEnd::Refused(refusal)) => Ok(Some(refusal)),
        Err(TextEnd::NoMemory) => Err(NoMemory),
    }
}

/// No list of statements has two answers of `first_refusal`.
pub fn one_answer()
    ensures { OneAnswer }
{}
