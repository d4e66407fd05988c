//! Procedures that are read from texts, their graphs, and the order in which the lines of a graph are taken.
ghost use Rattle.std.specs.Prelude.{IfOk};
ghost use Rattle.flow_graph.specs.Graph.{IsWellFormed};
ghost use Rattle.flow_graph.specs.Reached.{IsInnerOrder};

use acceptance::accept;
use control_flow::{Shape, control_of};
use flow_graph::{FlowGraph, build};
use il_core::{CheckedText, List, NoMemory, TextEnd};
use interval_reduce::derive;
use std::alloc::Global;
use std::test::Fail;

/// The checked text of these bytes.
pub fn accepted(alloc: Global, text: &[u8]) -> Result<CheckedText, Fail> {
    if text.len() > 1_048_576 {
        return Err(Fail::from("too long"));
    }
    match accept(alloc, text) {
        Ok(expanded) => Ok(expanded.text),
        Err(TextEnd::Refused(_)) => Err(Fail::from("refused")),
        Err(TextEnd::NoMemory) => Err(Fail::from(NoMemory)),
    }
}

/// The checked text of one procedure with these declarations and this body; line 0 is its PRE.
pub fn written(alloc: Global, declared: &str, body: &str) -> Result<CheckedText, Fail> {
    let text = format!(in alloc;
        "TITLE t;PROC p;{declared}PRE TRUE;POST TRUE;{body}ENDPROC;FINISH;"
    )?;
    accepted(alloc, text.as_bytes())
}

/// The graph of the first procedure of a text.
pub fn graph_in(alloc: Global, checked: &CheckedText) -> Result<FlowGraph, Fail>
    ensures { IfOk result IsWellFormed }
{
    match checked.procs().get(0) {
        Some(proc) => Ok(build(alloc, proc)?),
        None => Err(Fail::from("no procedure")),
    }
}

/// The graph of a body that tests an input x.
pub fn graph_of(alloc: Global, body: &str) -> Result<FlowGraph, Fail>
    ensures { IfOk result IsWellFormed }
{
    let checked = written(alloc, "IN x : 0 .. 9;OUT y : 0 .. 9;", body)?;
    graph_in(alloc, &checked)
}

/// Five lines, each of which leads to the next.
pub const STRAIGHT: &str = "y := x;y := x;y := x;";

/// A loop that never ends.
pub const ENDLESS: &str = "LOOP;SKIP;ENDLOOP;";

/// A jump into a loop behind its first line.
pub const TWICE_ENTERED: &str = "IF x = 1;GOTO a;ENDIF;LOOP;SKIP;LABEL a;EXIT WHEN x = 2;ENDLOOP;";

/// A loop in a loop.
pub const NESTED: &str = "LOOP;LOOP;EXIT WHEN x = 1;ENDLOOP;EXIT WHEN x = 2;ENDLOOP;";

/// The order in which the lines of a reducible graph are taken.
pub fn order_of(alloc: Global, graph: &FlowGraph) -> Result<List<usize>, Fail>
    requires { IsWellFormed graph.now }
    ensures { IfOk result (IsInnerOrder graph.now) }
{
    let control = control_of(alloc, graph)?;
    let derivation = derive(alloc, graph, &control)?;
    match control.shape {
        Shape::Reducible => Ok(derivation.order),
        Shape::TwoEntries(_) => Err(Fail::from("not reducible")),
    }
}
