//! The table and the long rows of a region.
ghost use Rattle.std.specs.Prelude.{◌≡◌, ◌<◌, [], IfOk, length};
ghost use Rattle.il_core.specs.LineGraph.{IsIn};
ghost use Rattle.il_core.specs.Checked.{procedure_of};
ghost use Rattle.flow_graph.specs.Graph.{graph_of};
ghost use Rattle.control_flow.specs.Control.{IsControlOf};
ghost use Rattle.control_flow.specs.declared.control.Shape.TheVariants.{Reducible};
ghost use Rattle.interval_reduce.specs.Derivation.{IsDerivationOf};
ghost use Rattle.sym_terms.specs.Identity.{own_values};
ghost use Rattle.test_graph.specs.Decision.{decision_at};
ghost use Rattle.test_graph.specs.Lowered.{IsLowered};
ghost use Rattle.region_paths.specs.Count.{AreSizesOf};
ghost use Rattle.region_paths.specs.PathTree.{paths_down};
ghost use Rattle.region_paths.specs.Region.{first_lines};
ghost use Rattle.region_paths.specs.Laws.{BeginsRegion};
ghost use Rattle.semantic_tables.specs.Table.{IsTable, IsLongTable};
ghost use Rattle.semantic_tables.specs.Hazards.{AreHazards, HaveLeast};
ghost use Rattle.semantic_tables.specs.OneRow.{OneRowEach, OneLongRowEach};
ghost use Rattle.semantic_tables.specs.Fit.{HaveSoundLiterals};
ghost use Rattle.semantic_tables.specs.declared.segment.Segment.TheVariants.{Region};
ghost use Rattle.semantic_tables.specs.Walk.{IsExploration, explored_procedure, tree_from, StaysSmall, LeftOut, AreSound, Adds, nothing, IsTableFor, IsExploredFor, IsSoundWithin};

use crate::environment::own_terms;
use crate::exploration::{Exploration, Query};
use crate::hazard::HazardsOr;
use crate::laws::{inputs_have_one_long_row, inputs_have_one_row};
use crate::prefix::Prefix;
use crate::row::TableOr;
use crate::segment::Segment;
use crate::walking::{Found, is_open, walk};
use control_flow::Control;
use il_core::{CheckedProc, List, NoMemory};
use interval_reduce::Derivation;
use path_inputs::refuted_stays_refuted;
use region_paths::{Limit, Sizes, first_node, one_listing, paths_are_listed};
use std::alloc::Global;
use sym_simplify::Forms;
use test_graph::TestGraph;

/// What is found of a region, or the first limit that it passes.
enum Explored {
    /// All of it.
    Within(Found),
    /// The region is too large.
    Past(Limit),
}

/// What is asked for of a region of which each comparison and each assigned term is within the limits, and no path has
/// more lines than `room` says.
fn found_in(exploration: Exploration<'_>, room: usize) -> Result<Found, NoMemory>
    requires exploration { IsExploration exploration }
    requires line { exploration.line < length (explored_procedure exploration).lines }
    requires small { StaysSmall (tree_from exploration (Region room) (decision_at (explored_procedure exploration) exploration.line)) (own_values (length exploration.proc.now.places)) }
    ensures adds { IfOk result (Adds (LeftOut exploration.entry) exploration.entry.query [] [] (paths_down (tree_from exploration.entry (Region room) (decision_at (explored_procedure exploration.entry) exploration.entry.line)) (own_values (length exploration.entry.proc.now.places))) nothing) }
    ensures sound { IfOk result (AreSound exploration.entry) }
{
    refuted_stays_refuted();
    let mut forms = Forms::new(exploration.alloc)?;
    let places = exploration.proc.places().len();
    let mut env = own_terms(exploration.alloc, &mut forms, places)?;
    let mut prefix = Prefix::new(exploration.alloc);
    let mut found = Found {
        rows: List::new(exploration.alloc),
        hazards: List::new(exploration.alloc),
    };
    if is_open(exploration, &mut prefix)? {
        let first = first_node(exploration.proc, exploration.graph, exploration.line);
        let segment = Segment::Region(room);
        walk(
            exploration,
            first,
            segment,
            &mut forms,
            &mut env,
            &mut prefix,
            &mut found,
        )?;
    }
    Ok(found)
}

/// What is asked for of a region, or the first limit that it passes.
fn explore(
    alloc: Global,
    proc: &CheckedProc,
    graph: &TestGraph,
    control: &Control,
    sizes: &Sizes,
    pc: usize,
    query: Query,
) -> Result<Explored, NoMemory>
    requires lowered { IsLowered (procedure_of proc.now) graph.now }
    requires control { IsControlOf (graph_of (procedure_of proc.now)) control.now }
    requires shape { control.now.shape ≡ Reducible }
    requires sizes { AreSizesOf (procedure_of proc.now) control.now.loops graph.now sizes.now }
    requires first { IsIn (first_lines control.now.loops) pc }
    ensures begins { IfOk result (λ _. BeginsRegion (procedure_of proc.now) control.now.loops pc) }
    ensures found { IfOk result (IsExploredFor query (procedure_of proc.now) control.now.loops pc) }
    ensures sound { IfOk result (IsSoundWithin proc.now.places pc) }
{
    paths_are_listed();
    one_listing();
    let room = proc.lines().len();
    if let Some(limit) = sizes.limit(alloc, proc, graph, control, pc)? {
        return Ok(Explored::Past(limit));
    }
    let loops = control.loops.as_slice();
    let exploration = Exploration {
        alloc,
        proc,
        graph,
        loops,
        line: pc,
        query,
    };
    Ok(Explored::Within(found_in(exploration, room)?))
}

/// The rows of a region, or the first limit that it passes.
fn rows_within(
    alloc: Global,
    proc: &CheckedProc,
    graph: &TestGraph,
    control: &Control,
    sizes: &Sizes,
    pc: usize,
    query: Query,
) -> Result<TableOr, NoMemory>
    requires lowered { IsLowered (procedure_of proc.now) graph.now }
    requires control { IsControlOf (graph_of (procedure_of proc.now)) control.now }
    requires shape { control.now.shape ≡ Reducible }
    requires sizes { AreSizesOf (procedure_of proc.now) control.now.loops graph.now sizes.now }
    requires first { IsIn (first_lines control.now.loops) pc }
    ensures begins { IfOk result (λ _. BeginsRegion (procedure_of proc.now) control.now.loops pc) }
    ensures rows { IfOk result (IsTableFor query (procedure_of proc.now) control.now.loops pc) }
    ensures fits { IfOk result (HaveSoundLiterals (length proc.now.places)) }
{
    match explore(alloc, proc, graph, control, sizes, pc, query)? {
        Explored::Within(found) => Ok(TableOr::Table(found.rows)),
        Explored::Past(limit) => Ok(TableOr::Past(limit)),
    }
}

/// The table of the region that begins at line `pc`: for each of its paths that is not plainly refuted, in the order of
/// decisions, true first, the path's decisions, the forms of its literals, where it stops, and the normal term of each
/// place's value there (symbolic execution: J. C. King, 1976). Each input of the region meets the literals of exactly one
/// row, and stepping the lines from it comes to the row's stop and values. The literals are such as `least_input` asks
/// for.
///
/// `graph`, `control` and `derivation` are those of `proc`, whose shape is reducible, and `pc` is line 0 or a loop head.
/// `Past` comes exactly where `size` answers a limit. `NoMemory` comes only where memory runs out; what the walk took
/// beside the rows is given back.
///
/// It walks down the tree of decisions once: a comparison is substituted and brought to its form once for all paths that
/// share it, and a prefix that is plainly refuted gives up all paths below it. A decision takes at most two solvings by
/// `least_input`; a row takes as many steps as its literals and values have parts. The stack holds two calls for each
/// decision of a path and one for each of its lines and assignments. Each decision has another side with a path of its
/// own, on which all decisions before it stand too, so by the limit on nodes a path has fewer than 1,450 decisions: with
/// 1,000 lines that is less than 5,000 calls.
pub fn table(
    alloc: Global,
    proc: &CheckedProc,
    graph: &TestGraph,
    control: &Control,
    derivation: &Derivation,
    pc: usize,
) -> Result<TableOr, NoMemory>
    requires lowered { IsLowered (procedure_of proc.now) graph.now }
    requires control { IsControlOf (graph_of (procedure_of proc.now)) control.now }
    requires shape { control.now.shape ≡ Reducible }
    requires derivation { IsDerivationOf (graph_of (procedure_of proc.now)) control.now.shape derivation.now }
    requires first { IsIn (first_lines control.now.loops) pc }
    ensures rows { IfOk result (IsTable (procedure_of proc.now) control.now.loops pc) }
    ensures one { IfOk result (OneRowEach (procedure_of proc.now) control.now.loops pc) }
    ensures fits { IfOk result (HaveSoundLiterals (length proc.now.places)) }
{
    let sizes = Sizes::of_regions(alloc, proc, graph, control)?;
    table_by(alloc, proc, graph, control, &sizes, pc)
}

/// The table of the region that begins at line `pc`, as `table` answers it, where what the sizes of all regions share is at
/// hand: who asks for the tables of several regions makes it once.
pub fn table_by(
    alloc: Global,
    proc: &CheckedProc,
    graph: &TestGraph,
    control: &Control,
    sizes: &Sizes,
    pc: usize,
) -> Result<TableOr, NoMemory>
    requires lowered { IsLowered (procedure_of proc.now) graph.now }
    requires control { IsControlOf (graph_of (procedure_of proc.now)) control.now }
    requires shape { control.now.shape ≡ Reducible }
    requires sizes { AreSizesOf (procedure_of proc.now) control.now.loops graph.now sizes.now }
    requires first { IsIn (first_lines control.now.loops) pc }
    ensures rows { IfOk result (IsTable (procedure_of proc.now) control.now.loops pc) }
    ensures one { IfOk result (OneRowEach (procedure_of proc.now) control.now.loops pc) }
    ensures fits { IfOk result (HaveSoundLiterals (length proc.now.places)) }
{
    inputs_have_one_row();
    rows_within(alloc, proc, graph, control, sizes, pc, Query::Table)
}

/// The rows of all long paths of the region that begins at line `pc`, in the order of decisions, true first: these go on
/// through the leading assertions of the loop head that they meet (the cut points of Floyd, 1967), and those that are
/// refuted stand too. Each input of the region meets the literals of exactly one row, and stepping the lines from it, on
/// through these assertions, comes to the row's stop and values. The literals are such as `least_input` asks for.
///
/// The conditions, the answers, the steps and the stack are those of `table`, but nothing is solved.
pub fn long_rows(
    alloc: Global,
    proc: &CheckedProc,
    graph: &TestGraph,
    control: &Control,
    derivation: &Derivation,
    pc: usize,
) -> Result<TableOr, NoMemory>
    requires lowered { IsLowered (procedure_of proc.now) graph.now }
    requires control { IsControlOf (graph_of (procedure_of proc.now)) control.now }
    requires shape { control.now.shape ≡ Reducible }
    requires derivation { IsDerivationOf (graph_of (procedure_of proc.now)) control.now.shape derivation.now }
    requires first { IsIn (first_lines control.now.loops) pc }
    ensures rows { IfOk result (IsLongTable (procedure_of proc.now) control.now.loops pc) }
    ensures one { IfOk result (OneLongRowEach (procedure_of proc.now) control.now.loops pc) }
    ensures fits { IfOk result (HaveSoundLiterals (length proc.now.places)) }
{
    inputs_have_one_long_row();
    let sizes = Sizes::of_regions(alloc, proc, graph, control)?;
    rows_within(alloc, proc, graph, control, &sizes, pc, Query::LongRows)
}

/// The hazards of the region that begins at line `pc`: those of its long paths that stop at a failed assertion, a failed
/// postcondition, a division by zero or a value out of range, in order, each with the least input of its literals, or
/// with none exactly where they are plainly refuted. The literals are such as `least_input` asks for.
///
/// The conditions, the answers and the stack are those of `long_rows`. It takes the same walk, but a path that does not
/// stop badly costs nothing beyond its share of the walk, and no value is brought to its normal term. What is found refuted
/// is handed down: a hazard costs one solving by `least_input`, or none where a prefix of its decisions is known to be
/// refuted; and no prefix is solved twice.
pub fn hazards(
    alloc: Global,
    proc: &CheckedProc,
    graph: &TestGraph,
    control: &Control,
    derivation: &Derivation,
    pc: usize,
) -> Result<HazardsOr, NoMemory>
    requires lowered { IsLowered (procedure_of proc.now) graph.now }
    requires control { IsControlOf (graph_of (procedure_of proc.now)) control.now }
    requires shape { control.now.shape ≡ Reducible }
    requires derivation { IsDerivationOf (graph_of (procedure_of proc.now)) control.now.shape derivation.now }
    requires first { IsIn (first_lines control.now.loops) pc }
    ensures hazards { IfOk result (AreHazards (procedure_of proc.now) control.now.loops pc) }
    ensures least { IfOk result (HaveLeast proc.now.places pc) }
{
    let sizes = Sizes::of_regions(alloc, proc, graph, control)?;
    hazards_by(alloc, proc, graph, control, &sizes, pc)
}

/// The hazards of the region that begins at line `pc`, as `hazards` answers them, where what the sizes of all regions share
/// is at hand: who asks for the hazards of several regions makes it once.
pub fn hazards_by(
    alloc: Global,
    proc: &CheckedProc,
    graph: &TestGraph,
    control: &Control,
    sizes: &Sizes,
    pc: usize,
) -> Result<HazardsOr, NoMemory>
    requires lowered { IsLowered (procedure_of proc.now) graph.now }
    requires control { IsControlOf (graph_of (procedure_of proc.now)) control.now }
    requires shape { control.now.shape ≡ Reducible }
    requires sizes { AreSizesOf (procedure_of proc.now) control.now.loops graph.now sizes.now }
    requires first { IsIn (first_lines control.now.loops) pc }
    ensures hazards { IfOk result (AreHazards (procedure_of proc.now) control.now.loops pc) }
    ensures least { IfOk result (HaveLeast proc.now.places pc) }
{
    match explore(alloc, proc, graph, control, sizes, pc, Query::Hazards)? {
        Explored::Within(found) => Ok(HazardsOr::Hazards(found.hazards)),
        Explored::Past(limit) => Ok(HazardsOr::Past(limit)),
    }
}
