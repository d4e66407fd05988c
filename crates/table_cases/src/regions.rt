//! The tables, test inputs and hazards of the regions of a text's first procedure.
ghost use Rattle.std.specs.Prelude.{◌≡◌, IfOk, length};
ghost use Rattle.il_core.specs.Checked.{procedure_of};
ghost use Rattle.il_core.specs.LineGraph.{IsIn};
ghost use Rattle.flow_graph.specs.Graph.{graph_of};
ghost use Rattle.control_flow.specs.Control.{IsControlOf};
ghost use Rattle.control_flow.specs.declared.control.Shape.TheVariants.{Reducible};
ghost use Rattle.interval_reduce.specs.Derivation.{IsDerivationOf};
ghost use Rattle.test_graph.specs.Lowered.{IsLowered};
ghost use Rattle.region_paths.specs.Region.{first_lines};
ghost use Rattle.semantic_tables.specs.Fit.{HaveSoundLiterals};

use acceptance::accept;
use control_flow::{Control, LoopInfo, Shape, control_of};
use flow_graph::build;
use il_core::{CheckedProc, CheckedText, List, NoMemory, TextEnd};
use interval_reduce::{Derivation, derive};
use row_inputs::inputs;
use semantic_tables::{HazardsOr, TableOr, hazards, long_rows, table};
use std::alloc::Global;
use std::test::Fail;
use test_graph::{TestGraph, lower};

/// What of a region is asked for.
#[derive(Clone, Copy)]
pub enum Asked {
    /// The rows of its table.
    Table,
    /// The test inputs of these rows.
    Inputs,
    /// The rows of its long paths.
    Long,
    /// Its hazards.
    Hazards,
}

/// What is found of a region.
#[derive(Drop)]
pub enum Found {
    /// Rows.
    Rows(TableOr),
    /// The test input of each row, or that there is no table.
    Inputs(Option<List<Option<List<i64>>>>),
    /// Hazards.
    Hazards(HazardsOr),
}

/// The first line of a region: of region 0 it is line 0, and of each other one the head of a loop.
pub fn first_line(loops: &[LoopInfo], region: usize) -> Result<usize, Fail>
    ensures { IfOk result (IsIn (first_lines loops.now)) }
{
    if region == 0 {
        return Ok(0);
    }
    match loops.get(region - 1) {
        Some(info) => Ok(info.head),
        None => Err(Fail::from("no such region")),
    }
}

/// The test inputs of the rows of a table.
fn inputs_of(
    alloc: Global,
    proc: &CheckedProc,
    control: &Control,
    table: &TableOr,
    pc: usize,
) -> Result<Option<List<Option<List<i64>>>>, NoMemory>
    requires control { IsControlOf (graph_of (procedure_of proc.now)) control.now }
    requires shape { control.now.shape ≡ Reducible }
    requires first { IsIn (first_lines control.now.loops) pc }
    requires fits { HaveSoundLiterals (length proc.now.places) table.now }
{
    match table {
        TableOr::Table(rows) => Ok(Some(inputs(alloc, proc, rows.as_slice(), control, pc)?)),
        TableOr::Past(_) => Ok(None),
    }
}

/// What of a region is asked for.
fn found_at(
    alloc: Global,
    proc: &CheckedProc,
    graph: &TestGraph,
    control: &Control,
    derivation: &Derivation,
    pc: usize,
    asked: Asked,
) -> Result<Found, NoMemory>
    requires lowered { IsLowered (procedure_of proc.now) graph.now }
    requires control { IsControlOf (graph_of (procedure_of proc.now)) control.now }
    requires shape { control.now.shape ≡ Reducible }
    requires derivation { IsDerivationOf (graph_of (procedure_of proc.now)) control.now.shape derivation.now }
    requires first { IsIn (first_lines control.now.loops) pc }
{
    match asked {
        Asked::Table => Ok(Found::Rows(table(alloc, proc, graph, control, derivation, pc)?)),
        Asked::Inputs => {
            let table = table(alloc, proc, graph, control, derivation, pc)?;
            Ok(Found::Inputs(inputs_of(alloc, proc, control, &table, pc)?))
        }
        Asked::Long => Ok(Found::Rows(long_rows(alloc, proc, graph, control, derivation, pc)?)),
        Asked::Hazards => Ok(Found::Hazards(hazards(alloc, proc, graph, control, derivation, pc)?)),
    }
}

/// What is asked for of a region of a procedure, which is reducible.
fn found_in(alloc: Global, proc: &CheckedProc, region: usize, asked: Asked) -> Result<Found, Fail> {
    let graph = build(alloc, proc)?;
    let control = control_of(alloc, &graph)?;
    let derivation = derive(alloc, &graph, &control)?;
    let lowered = lower(alloc, proc)?;
    let pc = first_line(control.loops.as_slice(), region)?;
    match &control.shape {
        Shape::Reducible => Ok(found_at(alloc, proc, &lowered, &control, &derivation, pc, asked)?),
        Shape::TwoEntries(_) => Err(Fail::from("not reducible")),
    }
}

/// A text that is accepted.
pub fn checked(alloc: Global, text: &[u8]) -> Result<CheckedText, Fail> {
    if text.len() > 1_048_576 {
        return Err(Fail::from("too long"));
    }
    match accept(alloc, text) {
        Ok(expanded) => Ok(expanded.text),
        Err(TextEnd::Refused(_)) => Err(Fail::from("refused")),
        Err(TextEnd::NoMemory) => Err(Fail::from("out of memory")),
    }
}

/// What is asked for of a region of the first procedure of a text.
pub fn found_of(alloc: Global, text: &[u8], region: usize, asked: Asked) -> Result<Found, Fail> {
    let text = checked(alloc, text)?;
    match text.procs().get(0) {
        Some(proc) => found_in(alloc, proc, region, asked),
        None => Err(Fail::from("no procedure")),
    }
}
