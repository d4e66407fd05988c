//! Plans of an elimination.
ghost use Rattle.std.specs.Prelude.{◌≡◌, ◌+◌, length, map, IfOk};
ghost use Rattle.regular_algebra.specs.Paths.{HasNoCycle};
ghost use Rattle.regular_algebra.specs.Words.{EachNamesLower, HasNoStar};
ghost use Rattle.regular_algebra.specs.Rule.{finished};
ghost use Rattle.regular_algebra.specs.Answers.{FitsArcs, AreAnswers, AnswersBelow};

use crate::board::Board;
use crate::steps::{Ends, Plan};
use il_core::{List, NoMemory};
use std::alloc::Global;

/// The plan that eliminates the nodes of `order`, one after the other, from the graph of `arcs`, with one answer for
/// each target: the number of a value whose words are exactly the paths from `start` to it, or `None` where no path
/// goes. A step names lower values only, and where the graph has no cycle no step is a star.
///
/// All nodes, `start` and the targets are below `count`; the targets differ; `start` is no target; `order` has each node
/// that has an arc, other than `start` and the targets, exactly once, and has neither; no arc enters `start` and none
/// leaves a target. The only error is want of memory.
pub fn plan(
    alloc: Global,
    count: usize,
    arcs: &[Ends],
    order: &[usize],
    start: usize,
    targets: &[usize],
) -> Result<Plan, NoMemory>
    requires { FitsArcs count arcs.now order.now start targets.now }
    ensures steps { IfOk result (λ p. p.steps ≡ (finished count arcs.now order.now).steps) }
    ensures numbers { IfOk result (λ p. p.answers ≡ map (λ t. (finished count arcs.now order.now).entry start t) targets.now) }
    ensures lower { IfOk result (λ p. EachNamesLower (length arcs.now) p.steps) }
    ensures below { IfOk result (λ p. AnswersBelow (length arcs.now + length p.steps) p.answers) }
    ensures answers { IfOk result (λ p. AreAnswers arcs.now p.steps start targets.now p.answers) }
    ensures starless { IfOk result (λ p. HasNoCycle arcs.now → HasNoStar p.steps) }
{
    let board = Board::finished(alloc, count, arcs, order)?;
    let answers = board.answers(alloc, start, targets)?;
    Ok(Plan {
        steps: List::from_vec(board.into_steps()),
        answers: List::from_vec(answers),
    })
}
