//! Two paths from a line to targets that share that line alone.
ghost use Rattle.std.specs.Prelude.{◌≡◌, ℕ, ◌<◌, ◌↔◌, length, IfOk, IfSome, IfNone, IsFalse};
ghost use Rattle.il_core.specs.LineGraph.{IsIn};
ghost use Rattle.flow_graph.specs.Graph.{Joins, IsWellFormed};
ghost use Rattle.flow_graph.specs.Search.{IsMarked, StayBelow};
ghost use Rattle.disjoint_paths.specs.Pair.{HasPair, IsPair};
ghost use Rattle.disjoint_paths.specs.FirstPath.{IsNext};
ghost use Rattle.disjoint_paths.specs.Widened.{HasWidened};
ghost use Rattle.disjoint_paths.specs.Asked.{IsAsked, arcs_of, targets_of};

use crate::fan::{extend, fan_of};
use crate::pair::Pair;
use crate::start::start;
use crate::widening::Question;
use flow_graph::{FlowGraph, successors};
use il_core::{List, NoMemory};
use std::alloc::Global;

/// A path from the tail to a target, and beside it another one where there is a first path.
fn widen(alloc: Global, asked: &Question) -> Result<Option<Pair>, NoMemory>
    requires { IsAsked asked.now }
    ensures some { IfOk result (λ o. IfSome o (λ pair. HasWidened (arcs_of asked.now) (targets_of asked.now) asked.now.tail asked.now.path.now pair)) }
    ensures none { IfOk result (λ o. IfNone o (HasPair (arcs_of asked.now) (targets_of asked.now) asked.now.tail → ⊥)) }
{
    let mut state = start(alloc, asked)?;
    let mut next = 0;
    while next < state.opened.len() {
        if let Some(end) = state.visit(asked, next)? {
            let mut pair = fan_of(alloc, asked, state.opened.as_slice(), next)?;
            pair.left.push(end)?;
            extend(&mut pair.right, &asked.path[state.opened[next].from..])?;
            return Ok(Some(pair));
        }
        next += 1;
    }
    Ok(None)
}

/// Whether some two of the lines of `row` differ.
fn forks(row: &[usize]) -> bool
    ensures { IsFalse result ↔ ((b c : ℕ) → IsIn row.now b → IsIn row.now c → b ≡ c) }
{
    for line in row {
        if *line != row[0] {
            return true;
        }
    }
    false
}

/// Two paths from the line `tail` to targets that share that line alone, where each step of a path goes from a line to
/// one in its row. There is one row and one entry of `targets` per line; the rows name lines, and no line `tail` itself
/// stands in its own row.
///
/// `Some` exactly where there is such a pair: each of its two lists has the lines of one path of at least one arc, from
/// `tail` on; a target at which a path ends may be `tail` itself. The only error is `NoMemory`.
///
/// Linear in the lines and the lengths of the rows.
pub fn pair_from<'a>(
    alloc: Global,
    rows: &'a [List<usize>],
    tail: usize,
    targets: &'a [bool],
) -> Result<Option<Pair>, NoMemory>
    requires rows { StayBelow (length rows.now) rows.now }
    requires simple { IsNext rows.now tail tail → ⊥ }
    requires line { tail < length rows.now }
    requires size { length targets.now ≡ length rows.now }
    ensures some { IfOk result (λ o. IfSome o (λ pair. IsPair (IsNext rows.now) (IsMarked targets.now) tail pair)) }
    ensures none { IfOk result (λ o. IfNone o (HasPair (IsNext rows.now) (IsMarked targets.now) tail → ⊥)) }
{
    if !forks(rows[tail].as_slice()) {
        return Ok(None);
    }
    let none_yet = Question {
        rows,
        targets,
        tail,
        path: &[],
    };
    let Some(first) = widen(alloc, &none_yet)? else {
        return Ok(None);
    };
    let beside = Question {
        rows,
        targets,
        tail,
        path: &first.left.as_slice()[1..],
    };
    widen(alloc, &beside)
}

/// Two paths from the line `tail` of a graph to targets that share that line alone. There is one entry of `targets` per
/// line.
///
/// `Some` exactly where there is such a pair: each of its two lists has the lines of one path of at least one arc, from
/// `tail` on; a target at which a path ends may be `tail` itself. The only error is `NoMemory`. Which pair is given is
/// free. As `pair_from`, linear in the graph.
pub fn two_paths(
    alloc: Global,
    graph: &FlowGraph,
    tail: usize,
    targets: &[bool],
) -> Result<Option<Pair>, NoMemory>
    requires formed { IsWellFormed graph.now }
    requires line { tail < length graph.now.nodes }
    requires size { length targets.now ≡ length graph.now.nodes }
    ensures some { IfOk result (λ o. IfSome o (λ pair. IsPair (Joins graph.now.arcs) (IsMarked targets.now) tail pair)) }
    ensures none { IfOk result (λ o. IfNone o (HasPair (Joins graph.now.arcs) (IsMarked targets.now) tail → ⊥)) }
{
    let rows = successors(alloc, graph)?;
    let pair = pair_from(alloc, rows.as_slice(), tail, targets)?;
    Ok(pair)
}
