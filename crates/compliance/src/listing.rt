//! The threats of all regions.
ghost use Rattle.std.specs.Prelude.{◌≡◌, ◌∷◌, [], List, All, IfOk, OnOk, map, filter};
ghost use Rattle.il_core.specs.LineGraph.{IsIn};
ghost use Rattle.il_core.specs.Checked.{procedure_of, IsChecked};
ghost use Rattle.flow_graph.specs.Graph.{graph_of};
ghost use Rattle.control_flow.specs.Control.{IsControlOf};
ghost use Rattle.control_flow.specs.declared.control.Shape.TheVariants.{Reducible};
ghost use Rattle.interval_reduce.specs.Derivation.{IsDerivationOf};
ghost use Rattle.test_graph.specs.Lowered.{IsLowered};
ghost use Rattle.region_paths.specs.Count.{AreSizesOf};
ghost use Rattle.region_paths.specs.Region.{first_lines, leading_of};
ghost use Rattle.region_paths.specs.Listing.{RegionPath};
ghost use Rattle.region_paths.specs.Walk.{AreLines};
ghost use Rattle.semantic_tables.specs.Hazards.{hazard_of, normal_hazard};
ghost use Rattle.compliance.specs.Behind.{IsHazardBehind, is_bad_behind, AddsRegion, AddsTold};
ghost use Rattle.compliance.specs.Safe.{AreThreatsOf, IsSafeWhereRefuted, NamesItsLiteral};
ghost use Rattle.compliance.specs.declared.threat.Threat as the_threat;

use crate::judging::judged;
use crate::laws::refuted_lists_mean_no_bad_run;
use crate::opening::ends_within;
use crate::threat::Threat;
use control_flow::Control;
use il_core::{CheckedProc, List, NoMemory};
use interval_reduce::Derivation;
use region_paths::Sizes;
use semantic_tables::{Hazard, HazardsOr, hazards_by};
use std::alloc::Global;
use test_graph::{TestGraph, ways_go_along_arcs};

/// The lines and places of a procedure are those of a checked one.
fn told_checked(proc: &CheckedProc)
    ensures { IsChecked (procedure_of proc.now) }
{
    let _places = proc.places();
}

/// Adds the threat that a hazard of the region of line `pc` is, unless it comes to its end in the region's leading
/// assertions.
fn add_threat(
    alloc: Global,
    proc: &CheckedProc,
    graph: &TestGraph,
    pc: usize,
    leading: &[usize],
    hazard: Hazard,
    found: &mut List<Threat>,
) -> Result<(), NoMemory>
    requires lowered { IsLowered (procedure_of proc.now) graph.now }
    requires leading { AreLines (procedure_of proc.now) leading.now }
    requires hazard { IsHazardBehind (procedure_of proc.now) pc leading.now hazard }
    ensures { OnOk result ((r : RegionPath) → hazard_of hazard ≡ normal_hazard r → AddsTold (procedure_of proc.now) pc (filter (is_bad_behind (procedure_of proc.now) leading.now) (r ∷ [])) found.old found.new) }
{
    if ends_within(proc, graph, leading, hazard.path.as_slice()) {
        return Ok(());
    }
    found.push(judged(alloc, proc, pc, hazard)?)
}

/// Adds the threats among the hazards of the region of line `pc`, whose leading assertions are given.
fn add_threats(
    alloc: Global,
    proc: &CheckedProc,
    graph: &TestGraph,
    pc: usize,
    leading: &[usize],
    hazards: List<Hazard>,
    found: &mut List<Threat>,
) -> Result<(), NoMemory>
    requires lowered { IsLowered (procedure_of proc.now) graph.now }
    requires leading { AreLines (procedure_of proc.now) leading.now }
    requires hazards { All (IsHazardBehind (procedure_of proc.now) pc leading.now) hazards }
    ensures { OnOk result ((paths : List RegionPath) → map hazard_of hazards ≡ map normal_hazard paths → AddsTold (procedure_of proc.now) pc (filter (is_bad_behind (procedure_of proc.now) leading.now) paths) found.old found.new) }
{
    for hazard in hazards.into_vec() {
        add_threat(alloc, proc, graph, pc, leading, hazard, found)?;
    }
    Ok(())
}

/// Adds the threats of the region of line `pc`, whose leading assertions are given, where it is within its size.
fn add_region(
    alloc: Global,
    proc: &CheckedProc,
    graph: &TestGraph,
    control: &Control,
    sizes: &Sizes,
    pc: usize,
    leading: &[usize],
    found: &mut List<Threat>,
) -> Result<(), NoMemory>
    requires checked { IsChecked (procedure_of proc.now) }
    requires lowered { IsLowered (procedure_of proc.now) graph.now }
    requires control { IsControlOf (graph_of (procedure_of proc.now)) control.now }
    requires shape { control.now.shape ≡ Reducible }
    requires sizes { AreSizesOf (procedure_of proc.now) control.now.loops graph.now sizes.now }
    requires first { IsIn (first_lines control.now.loops) pc }
    requires leading { leading.now ≡ leading_of control.now.loops pc }
    ensures { OnOk result (AddsRegion (procedure_of proc.now) control.now.loops pc found.old found.new) }
{
    ways_go_along_arcs();
    match hazards_by(alloc, proc, graph, control, sizes, pc)? {
        HazardsOr::Past(_) => Ok(()),
        HazardsOr::Hazards(list) => add_threats(alloc, proc, graph, pc, leading, list, found),
    }
}

/// The threats of all regions within their size, region by region and in each in the order of their decisions, each with
/// its verdict: refuted, shown by an input from which the lines were stepped, or open at its first loose literal. Where
/// no region is past its size and each threat is refuted, no run from the precondition faults, fails an assertion or
/// ends outside the postcondition, however long it is.
///
/// `graph`, `control` and `derivation` are those of `proc`, whose shape is reducible. `NoMemory` comes only where memory
/// runs out. What the sizes of all regions share is made once. Each region's paths that stop badly are listed by
/// `hazards_by`, with what it found of their literals, and given up before those of the next. Nothing is solved here: a
/// threat that was found refuted there costs nothing more, and any other one at most twice as many steps as there are
/// lines. The pieces of a run from one head to the next are those of the method of inductive assertions
/// (R. W. Floyd, Assigning meanings to programs, 1967).
pub fn threats(
    alloc: Global,
    proc: &CheckedProc,
    graph: &TestGraph,
    control: &Control,
    derivation: &Derivation,
) -> Result<List<Threat>, NoMemory>
    requires lowered { IsLowered (procedure_of proc.now) graph.now }
    requires control { IsControlOf (graph_of (procedure_of proc.now)) control.now }
    requires shape { control.now.shape ≡ Reducible }
    requires derivation { IsDerivationOf (graph_of (procedure_of proc.now)) control.now.shape derivation.now }
    ensures threats { IfOk result (λ ts. AreThreatsOf (procedure_of proc.now) control.now.loops (first_lines control.now.loops) ts) }
    ensures named { IfOk result (λ ts. (t : the_threat.Threat) → IsIn ts t → NamesItsLiteral t) }
    ensures safe { IfOk result (λ ts. IsSafeWhereRefuted (procedure_of proc.now) control.now.loops ts) }
{
    told_checked(proc);
    refuted_lists_mean_no_bad_run();
    let mut found = List::new(alloc);
    let sizes = Sizes::of_regions(alloc, proc, graph, control)?;
    add_region(alloc, proc, graph, control, &sizes, 0, &[], &mut found)?;
    for info in control.loops.as_slice() {
        let leading = info.leading.as_slice();
        add_region(
            alloc, proc, graph, control, &sizes, info.head, leading, &mut found,
        )?;
    }
    Ok(found)
}
