ghost use Rattle.std.specs.Prelude.{◌≡◌, map, None, IfOk};
ghost use Rattle.il_core.specs.Statement.{placed};
ghost use Rattle.il_blocks.specs.BlockLink.{AreLinks};
ghost use Rattle.il_syntax.specs.Order.{IsInOrder};
ghost use Rattle.il_types.specs.Counted.{AreCounted};
ghost use Rattle.il_types.specs.Names.{front_of};
ghost use Rattle.il_types.specs.Rules.{ComesNowhere};
ghost use Rattle.il_called.specs.Called.{called_of};
ghost use Rattle.call_rules.specs.CalledText.{called_text};
ghost use Rattle.call_rules.specs.Clash.{twice_at};
ghost use Rattle.call_rules.specs.Parameters.{AreParameters};
ghost use Rattle.call_rules.specs.Rules.{Answers, CheckGives};

use crate::variables::variables_are_small;
use call_built::call_text;
use call_fits::first_unfit;
use call_limits::first_past_limits;
use call_names::first_twice;
use call_rules::{Parameters, first_of_call_rules};
use call_sound::accepted_are_checked;
use il_called::CalledText;
use il_core::{Link, NoMemory, Stmt, TextEnd};
use il_types::{Counts, Names, all_counts, first_declared};
use std::alloc::Global;

/// The text with calls of statements that keep all rules.
fn build(
    alloc: Global,
    names: &Names,
    before: &[Counts],
    parameters: &Parameters,
    stmts: &[Stmt],
    links: &[Link],
) -> Result<CalledText, NoMemory>
    requires order { IsInOrder (map placed stmts.now) }
    requires links { AreLinks (map placed stmts.now) links.now }
    requires counted { AreCounted (map placed stmts.now) before.now }
    requires names { names.now ≡ (front_of (map placed stmts.now)).table }
    requires parameters { AreParameters (map placed stmts.now) parameters.now }
    requires kept { Answers (map placed stmts.now) links.now None }
    ensures { IfOk result (λ t. called_of t ≡ called_text (map placed stmts.now) links.now) }
{
    accepted_are_checked();
    variables_are_small(names, before, stmts);
    let (title, procs, profile) = call_text(alloc, names, before, parameters, stmts, links)?;
    Ok(CalledText::new(title, procs, profile))
}

/// What `check_calls` answers where no name is declared twice.
fn check_declared(
    alloc: Global,
    names: &Names,
    before: &[Counts],
    stmts: &[Stmt],
    links: &[Link],
) -> Result<CalledText, TextEnd>
    requires order { IsInOrder (map placed stmts.now) }
    requires links { AreLinks (map placed stmts.now) links.now }
    requires counted { AreCounted (map placed stmts.now) before.now }
    requires names { names.now ≡ (front_of (map placed stmts.now)).table }
    requires once { ComesNowhere (twice_at (map placed stmts.now) links.now) (map placed stmts.now) }
    ensures { CheckGives (map placed stmts.now) links.now result }
{
    let parameters = Parameters::new(alloc, names, before, stmts)?;
    if let Some(refusal) = first_of_call_rules(names, before, &parameters, stmts) {
        return Err(TextEnd::Refused(refusal));
    }
    if let Some(refusal) = first_past_limits(alloc, names, before, stmts)? {
        return Err(TextEnd::Refused(refusal));
    }
    if let Some(refusal) = first_unfit(alloc, names, before, &parameters, stmts)? {
        return Err(TextEnd::Refused(refusal));
    }
    let text = build(alloc, names, before, &parameters, stmts, links)?;
    Ok(text)
}

/// The text with calls of statements in order with their links: its title, its profile, which is 2 where a statement has a WRAP and else
/// 1, and a procedure for each PROC. The places and the lines of a procedure are those that `il_built::check` makes, but a CALL stays one
/// line: it has the number of the procedure that it names, counted from 0, and for each of its parameters the value of the argument or the
/// number of the variable that is handed back.
///
/// The text is refused where a statement breaks one of these rules. Each is looked for in the whole text before the next, and the refusal
/// is that at the first statement that breaks it:
/// - no name is declared twice (`Code::Twice`, with the name), and no place of a procedure that is called has, under its new name, the
///   name of a variable of the caller;
/// - each name that is used is declared (`Unknown`, with the name);
/// - each name and expression has the type that is needed (`Typing`);
/// - the modes allow each use (`Access`);
/// - each range holds a value (`EmptyRange`);
/// - no part of an expression has static bounds outside 2^126 on either side of 0 (`Wide`);
/// - there are at most 64 procedures, each with at most 1,000 lines and 64 places, where each call counts as the lines that it becomes and
///   the places that it brings (`TooMany`);
/// - each CALL names an earlier procedure and has an argument for each of its parameters, a plain name for each INOUT and OUT parameter, no
///   name for two of them, and no place of the procedure called has a new name of more than 40 bytes (`BadCall`).
///
/// The other error, `NoMemory`, comes where memory runs out.
///
/// No call is expanded. The statements of a procedure are gone over a few times, and the time is linear in the text but for the look-ups by
/// name, the square of the number of arguments of a CALL, and the search among the variables of its procedure for the new names that it
/// brings.
pub fn check_calls(alloc: Global, stmts: &[Stmt], links: &[Link]) -> Result<CalledText, TextEnd>
    requires order { IsInOrder (map placed stmts.now) }
    requires links { AreLinks (map placed stmts.now) links.now }
    ensures { CheckGives (map placed stmts.now) links.now result }
{
    let counts = all_counts(alloc, stmts)?;
    let declared = first_declared(alloc, stmts)?;
    let before = counts.as_slice();
    let names = &declared.names;
    if let Some(refusal) = first_twice(alloc, names, before, stmts, declared.redeclaration)? {
        return Err(TextEnd::Refused(refusal));
    }
    check_declared(alloc, names, before, stmts, links)
}
