//! The relevant lines and the needed places of one variable, and of each.
ghost use Rattle.std.specs.Prelude.{◌≡◌, ◌<◌, IfOk};
ghost use Rattle.flow_graph.specs.Graph.{IsWellFormed, HasPlaces};
ghost use Rattle.flow_graph.specs.Reached.{IsInnerOrder};
ghost use Rattle.info_flow.specs.Growth.{AreLeast, AreRows};
ghost use Rattle.info_flow.specs.Together.{HaveLeast, AreLeastOfEach};
ghost use Rattle.info_flow.specs.Variable.{IsVariable};

use crate::sets::Sets;
use flow_graph::{FlowGraph, successors};
use il_core::{List, NoMemory, Place};
use std::alloc::Global;

/// What is relevant to the final value of a variable, line by line.
#[derive(Debug, Drop)]
pub struct RelevantSets {
    /// For each line whether it is relevant.
    pub lines: List<bool>,
    /// For each line the places that it needs: bit p for place p.
    pub needs: List<u64>,
}

/// What is relevant to the final value of a variable, with the variable.
#[derive(Debug, Drop)]
pub struct VariableSets {
    /// The variable's place.
    pub place: usize,
    /// What is relevant to its final value.
    pub sets: RelevantSets,
}

/// For the variable `place`, whether each line is relevant to its final value, and the mask of the places that each line
/// needs for it, one entry per line: the least sets closed under the rules of relevance, over all lines, also those that
/// no path reaches. The graph, the places and the order are as `flows` asks, and `place` is the number of a variable. The
/// only error is `NoMemory`.
///
/// The sources of the variable are the places that line 0 needs, and its deciding tests are the reachable tests among the
/// relevant lines (after Bergeretti and Carré, Information-flow and data-flow analysis of while-programs, 1985).
pub fn relevant(
    alloc: Global,
    graph: &FlowGraph,
    places: &[Place],
    order: &[usize],
    place: usize,
) -> Result<RelevantSets, NoMemory>
    requires formed { IsWellFormed graph.now }
    requires places { HasPlaces graph.now places.now }
    requires order { IsInnerOrder graph.now order.now }
    requires variable { IsVariable places.now place }
    ensures { IfOk result (λ sets. AreLeast graph.now place sets.lines sets.needs) }
{
    let rows = successors(alloc, graph)?;
    let Sets { lines, needs } = Sets::least(alloc, graph, rows.as_slice(), place)?;
    Ok(RelevantSets {
        lines: List::from_vec(lines),
        needs: List::from_vec(needs),
    })
}

/// The sets of one variable, by rows of the lines behind each line.
fn sets_of(
    alloc: Global,
    graph: &FlowGraph,
    rows: &[List<usize>],
    place: usize,
) -> Result<VariableSets, NoMemory>
    requires formed { IsWellFormed graph.now }
    requires rows { AreRows graph.now rows.now }
    requires low { place < 64 }
    ensures place { IfOk result (λ found. found.place ≡ place) }
    ensures least { IfOk result (HaveLeast graph.now) }
{
    let Sets { lines, needs } = Sets::least(alloc, graph, rows, place)?;
    let sets = RelevantSets {
        lines: List::from_vec(lines),
        needs: List::from_vec(needs),
    };
    Ok(VariableSets { place, sets })
}

/// The sets of each variable, in the order of the places.
pub fn sets_of_each(
    alloc: Global,
    graph: &FlowGraph,
    places: &[Place],
) -> Result<List<VariableSets>, NoMemory>
    requires formed { IsWellFormed graph.now }
    requires places { HasPlaces graph.now places.now }
    ensures { IfOk result (AreLeastOfEach graph.now places.now) }
{
    let rows = successors(alloc, graph)?;
    let mut found = List::new(alloc);
    for (number, place) in places.iter().enumerate() {
        if !place.old {
            found.push(sets_of(alloc, graph, rows.as_slice(), number)?)?;
        }
    }
    Ok(found)
}
