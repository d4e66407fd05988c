ghost use Rattle.std.specs.Prelude.{◌≡◌};
ghost use Rattle.il_edge.specs.Faults.{HasCause};
ghost use Rattle.il_edge.specs.Known.{SameTold};
ghost use Rattle.form_text.specs.Pieces.{Puts, Writes};
ghost use Rattle.report_text.specs.Report.{certificates_section, chosen, compliance_section, flow_section, graph_text, heading_text, inputs_section, part_text, paths_section, semantic_section, slice_section, title_text, usage_section, values_text};
ghost use Rattle.report_text.specs.Sections.{control_text};

use crate::calls::put_calls;
use crate::control::put_control;
use crate::sections::{
    put_certificates_section, put_compliance_section, put_flow_section, put_inputs_section,
    put_paths_section, put_semantic_section, put_slice_section, put_usage_section,
};
use form_text::put;
use il_edge::{Failed, Sink};
use itoa::Buffer;
use report::ProcReport;
use request::Selection;

#[tactic(auto, unfolding(crate::specs::Report::title_text))]
fn put_title<K: Sink>(part: &ProcReport, sink: &mut K) -> Result<(), Failed>
    ensures { Puts K.held K.settled K.faults sink.old sink.new result (title_text part.now) }
{
    let mut lines = Buffer::new();
    put(
        sink,
        &[
            b"PROCEDURE ",
            part.name.as_bytes(),
            b" LINES ",
            lines.format(part.lines).as_bytes(),
            b"\n",
        ],
    )
}

/// Writes the line of a procedure, and a line for each of its calls.
#[tactic(auto, unfolding(crate::specs::Report::heading_text))]
fn put_heading<K: Sink>(part: &ProcReport, sink: &mut K) -> Result<(), Failed>
    ensures { Puts K.held K.settled K.faults sink.old sink.new result (heading_text part.now) }
{
    put_title(part, sink)?;
    put_calls(part.calls.as_slice(), sink)
}

fn put_chosen_control<K: Sink>(
    selected: bool,
    part: &ProcReport,
    sink: &mut K,
) -> Result<(), Failed>
    ensures { Puts K.held K.settled K.faults sink.old sink.new result (chosen selected (control_text part.now.control part.now.derivation)) }
{
    if selected {
        put_control(&part.control, &part.derivation, sink)
    } else {
        Ok(())
    }
}

fn put_chosen_usage<K: Sink>(selected: bool, part: &ProcReport, sink: &mut K) -> Result<(), Failed>
    ensures { Puts K.held K.settled K.faults sink.old sink.new result (chosen selected (usage_section part.now)) }
{
    if selected {
        put_usage_section(part, sink)
    } else {
        Ok(())
    }
}

fn put_chosen_flow<K: Sink>(selected: bool, part: &ProcReport, sink: &mut K) -> Result<(), Failed>
    ensures { Puts K.held K.settled K.faults sink.old sink.new result (chosen selected (flow_section part.now)) }
{
    if selected {
        put_flow_section(part, sink)
    } else {
        Ok(())
    }
}

fn put_chosen_slice<K: Sink>(selected: bool, part: &ProcReport, sink: &mut K) -> Result<(), Failed>
    ensures { Puts K.held K.settled K.faults sink.old sink.new result (chosen selected (slice_section part.now)) }
{
    if selected {
        put_slice_section(part, sink)
    } else {
        Ok(())
    }
}

fn put_chosen_paths<K: Sink>(selected: bool, part: &ProcReport, sink: &mut K) -> Result<(), Failed>
    ensures { Puts K.held K.settled K.faults sink.old sink.new result (chosen selected (paths_section part.now)) }
{
    if selected {
        put_paths_section(part, sink)
    } else {
        Ok(())
    }
}

fn put_chosen_semantic<K: Sink>(
    selected: bool,
    part: &ProcReport,
    sink: &mut K,
) -> Result<(), Failed>
    ensures { Puts K.held K.settled K.faults sink.old sink.new result (chosen selected (semantic_section part.now)) }
{
    if selected {
        put_semantic_section(part, sink)
    } else {
        Ok(())
    }
}

fn put_chosen_inputs<K: Sink>(selected: bool, part: &ProcReport, sink: &mut K) -> Result<(), Failed>
    ensures { Puts K.held K.settled K.faults sink.old sink.new result (chosen selected (inputs_section part.now)) }
{
    if selected {
        put_inputs_section(part, sink)
    } else {
        Ok(())
    }
}

fn put_chosen_compliance<K: Sink>(
    selected: bool,
    part: &ProcReport,
    sink: &mut K,
) -> Result<(), Failed>
    ensures { Puts K.held K.settled K.faults sink.old sink.new result (chosen selected (compliance_section part.now)) }
{
    if selected {
        put_compliance_section(part, sink)
    } else {
        Ok(())
    }
}

fn put_chosen_certificates<K: Sink>(
    selected: bool,
    part: &ProcReport,
    sink: &mut K,
) -> Result<(), Failed>
    ensures { Puts K.held K.settled K.faults sink.old sink.new result (chosen selected (certificates_section part.now)) }
{
    if selected {
        put_certificates_section(part, sink)
    } else {
        Ok(())
    }
}

/// Writes the line of a procedure, and what is selected of the sections on its lines and its graph.
fn put_graph<K: Sink>(part: &ProcReport, selection: Selection, sink: &mut K) -> Result<(), Failed>
    ensures { Puts K.held K.settled K.faults sink.old sink.new result (graph_text selection part.now) }
{
    put_heading(part, sink)?;
    put_chosen_control(selection.control, part, sink)?;
    put_chosen_usage(selection.usage, part, sink)?;
    put_chosen_flow(selection.flow, part, sink)?;
    put_chosen_slice(selection.slice, part, sink)?;
    put_chosen_paths(selection.paths, part, sink)
}

/// Writes what is selected of the sections on a procedure's values.
fn put_values<K: Sink>(part: &ProcReport, selection: Selection, sink: &mut K) -> Result<(), Failed>
    ensures { Puts K.held K.settled K.faults sink.old sink.new result (values_text selection part.now) }
{
    put_chosen_semantic(selection.semantic, part, sink)?;
    put_chosen_inputs(selection.inputs, part, sink)?;
    put_chosen_compliance(selection.compliance, part, sink)?;
    put_chosen_certificates(selection.certificates, part, sink)
}

/// Writes the part of a procedure: its line, a line for each of its calls, and behind them the sections that are selected, in their order. For an
/// irreducible procedure one line stands in place of each section but the first. `Failed` comes only where the sink's
/// count of faults rose in this call, and then a prefix of the part was written. It takes no memory, leaves what is
/// settled as it was, and costs time linear in what the report tells and in the text.
#[tactic(auto, unfolding(crate::specs::Report::part_text))]
pub fn put_part<K: Sink>(
    part: &ProcReport,
    selection: Selection,
    sink: &mut K,
) -> Result<(), Failed>
    ensures text { Writes (K.held sink.old) (K.held sink.new) result (part_text selection part.now) }
    ensures told { SameTold (K.held sink.old) (K.held sink.new) }
    ensures settled { K.settled sink.new ≡ K.settled sink.old }
    ensures cause { HasCause (K.faults sink.old) (K.faults sink.new) result }
{
    put_graph(part, selection, sink)?;
    put_values(part, selection, sink)
}
