//! The tables of the regions of a procedure.
ghost use Rattle.std.specs.Prelude.{◌≡◌, IfOk, length};
ghost use Rattle.il_core.specs.LineGraph.{IsIn};
ghost use Rattle.il_core.specs.Checked.{procedure_of};
ghost use Rattle.flow_graph.specs.Graph.{graph_of};
ghost use Rattle.control_flow.specs.Control.{IsControlOf};
ghost use Rattle.control_flow.specs.declared.control.Shape.TheVariants.{Reducible};
ghost use Rattle.interval_reduce.specs.Derivation.{IsDerivationOf};
ghost use Rattle.test_graph.specs.Lowered.{IsLowered};
ghost use Rattle.region_paths.specs.Count.{AreSizesOf};
ghost use Rattle.region_paths.specs.Region.{first_lines};
ghost use Rattle.semantic_tables.specs.Table.{IsTable};
ghost use Rattle.semantic_tables.specs.Fit.{HaveSoundLiterals};
ghost use Rattle.semantic_tables.specs.OneRow.{OneRowEach};
ghost use Rattle.report.specs.Reported.{AreTables};
ghost use Rattle.report.specs.Headline.{HaveOneRow};
ghost use Rattle.report.specs.declared.report.RegionTable.{RegionTable};

use control_flow::Control;
use il_core::{CheckedProc, List, NoMemory};
use interval_reduce::Derivation;
use region_paths::Sizes;
use report::RegionTable;
use semantic_tables::table_by;
use std::alloc::Global;
use test_graph::TestGraph;

/// The table of the region that begins at line `pc`, with that line.
fn region_table(
    alloc: Global,
    proc: &CheckedProc,
    tests: &TestGraph,
    control: &Control,
    sizes: &Sizes,
    pc: usize,
) -> Result<RegionTable, NoMemory>
    requires lowered { IsLowered (procedure_of proc.now) tests.now }
    requires control { IsControlOf (graph_of (procedure_of proc.now)) control.now }
    requires shape { control.now.shape ≡ Reducible }
    requires sizes { AreSizesOf (procedure_of proc.now) control.now.loops tests.now sizes.now }
    requires first { IsIn (first_lines control.now.loops) pc }
    ensures region { IfOk result (λ t. t.pc ≡ pc) }
    ensures rows { IfOk result (λ t. IsTable (procedure_of proc.now) control.now.loops t.pc t.body) }
    ensures one { IfOk result (λ t. OneRowEach (procedure_of proc.now) control.now.loops t.pc t.body) }
    ensures fits { IfOk result (λ t. HaveSoundLiterals (length proc.now.places) t.body) }
{
    let body = table_by(alloc, proc, tests, control, sizes, pc)?;
    Ok(RegionTable { pc, body })
}

/// The tables of all regions of a reducible procedure, by their first lines: line 0, then the loop heads. The cost is
/// that of the tables. The only error is `NoMemory`.
pub(crate) fn tables_of(
    alloc: Global,
    proc: &CheckedProc,
    tests: &TestGraph,
    control: &Control,
    derivation: &Derivation,
) -> Result<List<RegionTable>, NoMemory>
    requires lowered { IsLowered (procedure_of proc.now) tests.now }
    requires control { IsControlOf (graph_of (procedure_of proc.now)) control.now }
    requires shape { control.now.shape ≡ Reducible }
    requires derivation { IsDerivationOf (graph_of (procedure_of proc.now)) control.now.shape derivation.now }
    ensures tables { IfOk result (AreTables (procedure_of proc.now) control.now.loops) }
    ensures one { IfOk result (HaveOneRow (procedure_of proc.now) control.now.loops) }
    ensures fits { IfOk result (λ tables. (t : RegionTable) → IsIn tables t → HaveSoundLiterals (length proc.now.places) t.body) }
{
    let sizes = Sizes::of_regions(alloc, proc, tests, control)?;
    let mut tables = List::new(alloc);
    let first = region_table(alloc, proc, tests, control, &sizes, 0)?;
    tables.push(first)?;
    for info in control.loops.as_slice() {
        let next = region_table(alloc, proc, tests, control, &sizes, info.head)?;
        tables.push(next)?;
    }
    Ok(tables)
}
