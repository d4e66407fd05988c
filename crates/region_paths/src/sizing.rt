//! The size of a region: its long paths are counted from the ends, once for all regions of a procedure, and where they are
//! few enough, one walk down their tree finds the rest.
ghost use Rattle.std.specs.Prelude.{◌≡◌, IfOk, All, map};
ghost use Rattle.il_core.specs.LineGraph.{IsIn};
ghost use Rattle.il_core.specs.Checked.{procedure_of};
ghost use Rattle.flow_graph.specs.Graph.{graph_of};
ghost use Rattle.control_flow.specs.Control.{IsControlOf};
ghost use Rattle.control_flow.specs.declared.control.Shape.TheVariants.{Reducible};
ghost use Rattle.sym_terms.specs.Measure.{measured, IsCapped};
ghost use Rattle.sym_terms.specs.Identity.{own_values};
ghost use Rattle.test_graph.specs.Lowered.{IsLowered};
ghost use Rattle.region_paths.specs.Count.{AreSizesOf};
ghost use Rattle.region_paths.specs.Region.{first_lines};
ghost use Rattle.region_paths.specs.Size.{IsPast};

use crate::counting::{path_count, path_counts};
use crate::heads::loops_of_lines;
use crate::laws::paths_are_listed;
use crate::limit::Limit;
use crate::tally::{MOST_PATHS, Tally};
use crate::walk::{first_node, follow};
use control_flow::Control;
use il_core::{CheckedProc, NoMemory};
use std::alloc::Global;
use sym_terms::TermMeasure;
use test_graph::TestGraph;

/// The sizes of the first `count` places, each of which stands for itself.
fn own_sizes(alloc: Global, count: usize) -> Result<Vec<TermMeasure>, NoMemory>
    ensures sizes { IfOk result (λ v. v.items ≡ map measured (own_values count)) }
    ensures capped { IfOk result (λ v. All IsCapped v.items) }
{
    let mut sizes = Vec::new(alloc);
    for _place in 0..count {
        sizes.push(TermMeasure {
            nodes: 1,
            weight: 1,
            depth: 1,
        })?;
    }
    Ok(sizes)
}

/// What the sizes of all regions of a procedure share, counted once.
#[derive(Drop)]
pub struct Sizes {
    /// For each line the index of the loop of which it is the head.
    heads: Vec<Option<usize>>,
    /// For each node of the lowered graph how many long paths go on from it, counted up to 16,385.
    counts: Vec<u64>,
}

impl Sizes {
    /// What the sizes of the regions of `proc` share. `graph` and `control` are those of `proc`, whose shape is reducible.
    /// `NoMemory` comes only where memory runs out.
    ///
    /// It counts the long paths by adding from the ends, without recursion, in rounds over the nodes of the lowered graph:
    /// one or two where the ways between heads go forward, and at most one more than there are lines. It takes memory for
    /// the lines and the nodes.
    pub fn of_regions(
        alloc: Global,
        proc: &CheckedProc,
        graph: &TestGraph,
        control: &Control,
    ) -> Result<Sizes, NoMemory>
        requires lowered { IsLowered (procedure_of proc.now) graph.now }
        requires control { IsControlOf (graph_of (procedure_of proc.now)) control.now }
        requires shape { control.now.shape ≡ Reducible }
        ensures { IfOk result (AreSizesOf (procedure_of proc.now) control.now.loops graph.now) }
    {
        let heads = loops_of_lines(alloc, proc, control.loops.as_slice())?;
        let counts = path_counts(alloc, proc, graph, control, &heads)?;
        Ok(Sizes { heads, counts })
    }

    /// The first limit that the region of line `pc` passes, and `None` exactly where it passes none, as `size` tells it.
    ///
    /// `graph` and `control` are those of `proc`, whose shape is reducible, this is what the sizes of its regions share, and
    /// `pc` is line 0 or a loop head. `NoMemory` comes only where memory runs out.
    ///
    /// Only where the region has at most 16,384 long paths it walks down the tree of decisions once, with the capped sizes
    /// of the places' terms in place of the terms; it goes as deep as a path has decisions, fewer than 16,384, and twice
    /// as deep as it has lines. It takes memory for the places, and looks at no line that is not on a path of the region.
    pub fn limit(
        &self,
        alloc: Global,
        proc: &CheckedProc,
        graph: &TestGraph,
        control: &Control,
        pc: usize,
    ) -> Result<Option<Limit>, NoMemory>
        requires lowered { IsLowered (procedure_of proc.now) graph.now }
        requires control { IsControlOf (graph_of (procedure_of proc.now)) control.now }
        requires shape { control.now.shape ≡ Reducible }
        requires sizes { AreSizesOf (procedure_of proc.now) control.now.loops graph.now self.now }
        requires first { IsIn (first_lines control.now.loops) pc }
        ensures { IfOk result (λ past. IsPast (procedure_of proc.now) control.now.loops pc past) }
    {
        paths_are_listed();
        let places = proc.places().len();
        let loops = control.loops.as_slice();
        if path_count(proc, graph, control, &self.counts, pc) > MOST_PATHS {
            return Ok(Some(Limit::Rows));
        }
        let mut sizes = own_sizes(alloc, places)?;
        let first = first_node(proc, graph, pc);
        let mut tally = Tally::empty();
        let within = follow(
            proc,
            graph,
            loops,
            &self.heads,
            first,
            proc.lines().len(),
            &mut sizes,
            &mut tally,
        );
        if within {
            Ok(tally.limit())
        } else {
            Ok(Some(Limit::Rows))
        }
    }
}

/// The first limit that the region of line `pc` passes, and `None` exactly where it passes none: more than 16,384 long
/// paths; more than 2,097,152 nodes of the comparisons decided and the terms assigned on them, counted for each path;
/// one of these with a weight of 2^100 or more; one deeper than 1,000.
///
/// `graph` and `control` are those of `proc`, whose shape is reducible, and `pc` is line 0 or a loop head. It counts the
/// long paths of all regions first, and walks this one only where there are at most 16,384: who asks for the sizes of
/// several regions makes what they share once, by `Sizes::of_regions`, and asks that.
pub fn size(
    alloc: Global,
    proc: &CheckedProc,
    graph: &TestGraph,
    control: &Control,
    pc: usize,
) -> Result<Option<Limit>, NoMemory>
    requires lowered { IsLowered (procedure_of proc.now) graph.now }
    requires control { IsControlOf (graph_of (procedure_of proc.now)) control.now }
    requires shape { control.now.shape ≡ Reducible }
    requires first { IsIn (first_lines control.now.loops) pc }
    ensures { IfOk result (λ past. IsPast (procedure_of proc.now) control.now.loops pc past) }
{
    Sizes::of_regions(alloc, proc, graph, control)?.limit(alloc, proc, graph, control, pc)
}
