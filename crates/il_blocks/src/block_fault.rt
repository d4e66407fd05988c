ghost use Rattle.std.specs.Prelude.{◌≡◌, map, length, IfOk, None};
ghost use Rattle.il_core.specs.Statement.{placed};
ghost use Rattle.il_blocks.specs.Block.{IsFirst};
ghost use Rattle.il_blocks.specs.BlockLabel.{IsTable};
ghost use Rattle.il_blocks.specs.BlockFault.{lesser, IsFault, MatchGives, OneMatch};
ghost use Rattle.il_blocks.specs.BlockLink.{OneLinks};

use crate::block::first_unmatched;
use crate::block_label::{first_mislabelled, label_table};
use il_core::{Code, Name, NoMemory, Refusal, Stmt, TextEnd};
use indexmap::IndexMap;
use std::alloc::Global;

/// A refusal that names no name.
fn refused(code: Code, place: usize) -> TextEnd
    ensures { result ≡ TextEnd.Refused (record { code = code; place = place; name = None }) }
{
    TextEnd::Refused(Refusal {
        code,
        place,
        name: None,
    })
}

fn lesser(a: Option<usize>, b: Option<usize>) -> Option<usize>
    ensures { result ≡ lesser a b }
{
    match (a, b) {
        (None, b) => b,
        (Some(i), None) => Some(i),
        (Some(i), Some(j)) => Some(i.min(j)),
    }
}

/// The number of the first statement whose block or label is unmatched.
pub(crate) fn first_fault(
    alloc: Global,
    labels: &IndexMap<(usize, Name), usize>,
    stmts: &[Stmt],
) -> Result<Option<usize>, NoMemory>
    requires { IsTable (map placed stmts.now) (length stmts.now) labels.now.entries }
    ensures { IfOk result (λ first. IsFirst (IsFault (map placed stmts.now)) first) }
{
    let unmatched = first_unmatched(alloc, stmts)?;
    Ok(lesser(unmatched, first_mislabelled(labels, stmts)))
}

/// The answer of `check_blocks`, where the table of labels is made.
pub(crate) fn matched(
    alloc: Global,
    labels: &IndexMap<(usize, Name), usize>,
    stmts: &[Stmt],
) -> Result<(), TextEnd>
    requires { IsTable (map placed stmts.now) (length stmts.now) labels.now.entries }
    ensures { MatchGives (map placed stmts.now) result }
{
    match first_fault(alloc, labels, stmts)? {
        Some(at) => Err(refused(Code::Unmatched, stmts[at].place)),
        None => Ok(()),
    }
}

/// Whether each block and each label is matched. `Refused` comes with `Code::Unmatched` at the first statement of which one
/// of these holds: an ELSE, ENDIF or ENDLOOP closes no fitting innermost open block, an IF has a second ELSE, an EXIT stands
/// in no LOOP, a block is open at an ENDPROC, a LABEL repeats one of its procedure, a GOTO names no LABEL of its procedure.
/// It takes time linear in the statements but for the look-ups of labels in a map.
pub fn check_blocks(alloc: Global, stmts: &[Stmt]) -> Result<(), TextEnd>
    ensures { MatchGives (map placed stmts.now) result }
{
    let labels = label_table(alloc, stmts)?;
    matched(alloc, &labels, stmts)
}

/// No list of statements has two answers of `check_blocks`: not both a match and a refusal, and no two refusals.
pub fn one_match()
    ensures { OneMatch }
{}

/// No list of statements has two answers of links: no two lists of lines and jump targets, no list and a refusal, no two
/// refusals.
pub fn one_links()
    ensures { OneLinks }
{}
