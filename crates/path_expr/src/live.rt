//! The arcs of the lines that are reached.
ghost use Rattle.std.specs.Prelude.{◌≡◌, ℕ, ◌<◌, length, map, IfOk};
ghost use Rattle.il_core.specs.LineGraph.{IsIn};
ghost use Rattle.flow_graph.specs.Graph.{IsSoundArc};
ghost use Rattle.flow_graph.specs.Reached.{Lists};
ghost use Rattle.path_expr.specs.Report.{end_at};
ghost use Rattle.path_expr.specs.Live.{LeavesMarked};
ghost use Rattle.path_expr.specs.Marks.{CountFromOne};

use flow_graph::Arc;
use il_core::NoMemory;
use regular_algebra::Ends;
use std::alloc::Global;

/// The numbers of the arcs that leave a marked line, ascending.
pub fn live_arcs(alloc: Global, arcs: &[Arc], marks: &[bool]) -> Result<Vec<usize>, NoMemory>
    requires { (a : Arc) → IsIn arcs.now a → IsSoundArc (length marks.now) a }
    ensures exact { IfOk result (λ live. Lists (LeavesMarked arcs.now marks.now) live.items) }
    ensures small { IfOk result (λ live. CountFromOne live.items) }
{
    let mut live = Vec::with_capacity(alloc, arcs.len())?;
    for (k, arc) in arcs.iter().enumerate() {
        if marks[arc.tail] {
            live.push(k)?;
        }
    }
    Ok(live)
}

/// The ends of the arc numbered `k`, from 0.
fn end_at(arcs: &[Arc], k: usize) -> Ends
    requires { k < length arcs.now }
    ensures { result ≡ end_at arcs.now k }
{
    let arc = arcs[k];
    Ends {
        tail: arc.tail,
        head: arc.head,
    }
}

/// The ends of the arcs with these numbers.
pub fn ends_of(alloc: Global, arcs: &[Arc], live: &[usize]) -> Result<Vec<Ends>, NoMemory>
    requires { (k : ℕ) → IsIn live.now k → k < length arcs.now }
    ensures { IfOk result (λ ends. ends.items ≡ map (end_at arcs.now) live.now) }
{
    let mut ends = Vec::new(alloc);
    for k in live {
        ends.push(end_at(arcs, *k))?;
    }
    Ok(ends)
}
