//! The levels of a graph.
ghost use Rattle.std.specs.Prelude.{◌≡◌, ℕ, ◌↔◌, length, IfOk, IsTrue};
ghost use Rattle.flow_graph.specs.Graph.{Joins};
ghost use Rattle.flow_graph.specs.Search.{Reaches};
ghost use Rattle.interval_reduce.specs.Level.{IsLevel, AreSingle, IsLastLevel};
ghost use Rattle.interval_reduce.specs.Arcs.{AreSpread, AreLevelsFrom};

use crate::arcs::{head_rows, next_arcs, tail_rows};
use crate::growth::level;
use crate::interval::Interval;
use flow_graph::Arc;
use il_core::{List, NoMemory};
use std::alloc::Global;

/// The intervals of the graph of a level.
fn level_of(alloc: Global, count: usize, arcs: &[Arc]) -> Result<List<Interval>, NoMemory>
    requires { AreSpread count arcs.now }
    ensures { IfOk result (λ l. IsLevel (Reaches (Joins arcs.now) 0) (Joins arcs.now) l) }
{
    let preds = tail_rows(alloc, count, arcs)?;
    let succs = head_rows(alloc, count, arcs)?;
    let intervals = level(alloc, preds.as_slice(), succs.as_slice())?;
    Ok(intervals)
}

/// Whether each interval has one node.
fn are_single(level: &[Interval]) -> bool
    ensures { IsTrue result ↔ AreSingle level.now }
{
    for interval in level {
        if interval.members.len() != 1 {
            return false;
        }
    }
    true
}

/// Whether the reduction ends with a level.
fn is_last(level: &[Interval]) -> bool
    ensures { IsTrue result ↔ IsLastLevel level.now }
{
    level.len() == 1 || are_single(level)
}

/// The levels from a graph on.
pub fn levels_from(
    alloc: Global,
    count: usize,
    first: List<Arc>,
) -> Result<List<List<Interval>>, NoMemory>
    requires { AreSpread count first }
    ensures { IfOk result (λ l. AreLevelsFrom (Reaches (Joins first) 0) (Joins first) l) }
{
    let mut levels = List::new(alloc);
    let mut arcs = first;
    loop {
        let intervals = level_of(alloc, count, arcs.as_slice())?;
        if is_last(intervals.as_slice()) {
            levels.push(intervals)?;
            return Ok(levels);
        }
        arcs = next_arcs(alloc, count, arcs.as_slice(), intervals.as_slice())?;
        levels.push(intervals)?;
    }
}
