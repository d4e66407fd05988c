//! The test inputs of the rows of a region.
ghost use Rattle.std.specs.Prelude.{◌≡◌, ◌<◌, List, ℕ, All, IfOk, length, map};
ghost use Rattle.control_flow.specs.Control.{IsControlOf};
ghost use Rattle.control_flow.specs.declared.control.LoopInfo.{LoopInfo};
ghost use Rattle.control_flow.specs.declared.control.Shape.TheVariants.{Reducible};
ghost use Rattle.flow_graph.specs.Graph.{graph_of};
ghost use Rattle.il_core.specs.Checked.{procedure_of};
ghost use Rattle.il_core.specs.LineGraph.{IsIn};
ghost use Rattle.region_paths.specs.Laws.{BeginsRegion};
ghost use Rattle.region_paths.specs.Region.{first_lines};
ghost use Rattle.semantic_tables.specs.Row.{row_of};
ghost use Rattle.semantic_tables.specs.Fit.{HasSoundLiterals};
ghost use Rattle.semantic_tables.specs.Table.{IsOpenPath, AreRowsOf};
ghost use Rattle.row_inputs.specs.Heads.{MarkHeads};
ghost use Rattle.row_inputs.specs.Input.{TestInputIs, TestInputsAre};
ghost use Rattle.row_inputs.specs.Laws.{ServeRows};

use crate::heads::marks_of;
use crate::laws::table_inputs_serve;
use crate::stepping::is_taken;
use control_flow::Control;
use il_core::{CheckedProc, List, NoMemory};
use path_inputs::least_input;
use semantic_tables::Row;
use std::alloc::Global;

/// The test input of a row of the region of line `pc`. `heads` tells of each line whether it is a head.
fn input_of(
    alloc: Global,
    proc: &CheckedProc,
    heads: &[bool],
    row: &Row,
    pc: usize,
) -> Result<Option<List<i64>>, NoMemory>
    requires marks { length heads.now ≡ length proc.now.lines }
    requires line { pc < length proc.now.lines }
    requires fits { HasSoundLiterals (length proc.now.places) row.now }
    ensures { IfOk result (λ input. (loops : List LoopInfo) → MarkHeads (length proc.now.lines) loops heads.now → BeginsRegion (procedure_of proc.now) loops pc → TestInputIs (procedure_of proc.now) loops pc (row_of row.now) input) }
{
    let literals = row.literals.as_slice();
    let input = match least_input(alloc, proc.places().as_slice(), pc, literals)? {
        Some(input) => input,
        None => return Ok(None),
    };
    let path = row.path.as_slice();
    if is_taken(alloc, proc, heads, pc, input.as_slice(), path, row.stop)? {
        return Ok(Some(input));
    }
    Ok(None)
}

/// The test input of each row of the region that begins at line `pc`, in order: the least input of the row's literals,
/// where the lines stepped from it, up to a halt or to the first loop head, take the row's decisions and stop as it does.
///
/// `control` is that of `proc`, whose shape is reducible, and `pc` is line 0 or a loop head; the rows are those that
/// `table` gives for this region. `None` comes exactly where the row is plainly refuted or its least input does not take it.
/// Of the rows of a table, stepping from each input answered comes to the row's stop and values, and each row whose
/// literals are easy and at most eight of them `/=` has an input. `NoMemory` comes only where memory runs out.
///
/// The heads are marked once. Each row costs one search for its least input and at most one step more than the procedure
/// has lines.
pub fn inputs(
    alloc: Global,
    proc: &CheckedProc,
    rows: &[Row],
    control: &Control,
    pc: usize,
) -> Result<List<Option<List<i64>>>, NoMemory>
    requires control { IsControlOf (graph_of (procedure_of proc.now)) control.now }
    requires shape { control.now.shape ≡ Reducible }
    requires first { IsIn (first_lines control.now.loops) pc }
    requires fits { All (HasSoundLiterals (length proc.now.places)) rows.now }
    ensures exact { IfOk result (TestInputsAre (procedure_of proc.now) control.now.loops pc (map row_of rows.now)) }
    ensures serve { IfOk result (λ os. AreRowsOf (IsOpenPath (procedure_of proc.now) control.now.loops pc) rows.now → ServeRows (procedure_of proc.now) control.now.loops pc (map row_of rows.now) os) }
{
    table_inputs_serve();
    let heads = marks_of(alloc, proc.lines().len(), control.loops.as_slice())?;
    let mut answers = List::new(alloc);
    for row in rows {
        let input = input_of(alloc, proc, &heads, row, pc)?;
        answers.push(input)?;
    }
    Ok(answers)
}
