//! The test inputs of the regions of a procedure.
ghost use Rattle.std.specs.Prelude.{◌≡◌, ◌++◌, [], ◌∷◌, IfOk, length, List};
ghost use Rattle.il_core.specs.LineGraph.{IsIn};
ghost use Rattle.il_core.specs.Checked.{procedure_of};
ghost use Rattle.flow_graph.specs.Graph.{graph_of};
ghost use Rattle.control_flow.specs.Control.{IsControlOf};
ghost use Rattle.control_flow.specs.declared.control.Shape.TheVariants.{Reducible};
ghost use Rattle.region_paths.specs.Region.{first_lines};
ghost use Rattle.semantic_tables.specs.Fit.{HaveSoundLiterals};
ghost use Rattle.report.specs.Inputs.{AreInputs};
ghost use Rattle.report.specs.Reported.{AreTables};
ghost use Rattle.report.specs.declared.report.RegionInputs.{RegionInputs};
ghost use Rattle.report.specs.declared.report.RegionTable.{RegionTable};

use control_flow::Control;
use il_core::{CheckedProc, List, NoMemory};
use report::{RegionInputs, RegionTable};
use row_inputs::inputs;
use semantic_tables::TableOr;
use std::alloc::Global;

/// Adds the test inputs of the rows of a table, where its region is within its size.
fn add_inputs(
    alloc: Global,
    proc: &CheckedProc,
    control: &Control,
    table: &RegionTable,
    all: &mut List<RegionInputs>,
) -> Result<(), NoMemory>
    requires control { IsControlOf (graph_of (procedure_of proc.now)) control.now }
    requires shape { control.now.shape ≡ Reducible }
    requires first { IsIn (first_lines control.now.loops) table.now.pc }
    requires fits { HaveSoundLiterals (length proc.now.places) table.now.body }
    ensures { IfOk result (λ _. (more : List RegionInputs) × AreInputs (procedure_of proc.now) control.now.loops (table.now ∷ []) more × (all.new ≡ all.old ++ more)) }
{
    match &table.body {
        TableOr::Table(rows) => {
            let pc = table.pc;
            let rows = inputs(alloc, proc, rows.as_slice(), control, pc)?;
            all.push(RegionInputs { pc, rows })
        }
        TableOr::Past(_) => Ok(()),
    }
}

/// The test inputs of the rows of each table of a reducible procedure that is within its size, in the order of the
/// tables. The cost is that of the inputs of each. The only error is `NoMemory`.
pub(crate) fn inputs_of(
    alloc: Global,
    proc: &CheckedProc,
    control: &Control,
    tables: &[RegionTable],
) -> Result<List<RegionInputs>, NoMemory>
    requires control { IsControlOf (graph_of (procedure_of proc.now)) control.now }
    requires shape { control.now.shape ≡ Reducible }
    requires tables { AreTables (procedure_of proc.now) control.now.loops tables.now }
    requires fits { (t : RegionTable) → IsIn tables.now t → HaveSoundLiterals (length proc.now.places) t.body }
    ensures { IfOk result (AreInputs (procedure_of proc.now) control.now.loops tables.now) }
{
    let mut all = List::new(alloc);
    for table in tables {
        add_inputs(alloc, proc, control, table, &mut all)?;
    }
    Ok(all)
}
