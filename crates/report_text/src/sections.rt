ghost use Rattle.std.specs.Prelude.{◌≡◌};
ghost use Rattle.il_edge.specs.Faults.{HasCause};
ghost use Rattle.il_edge.specs.Known.{SameTold};
ghost use Rattle.form_text.specs.Pieces.{Puts, Writes};
ghost use Rattle.report_text.specs.Report.{certificates_section, compliance_section, flow_section, inputs_section, paths_section, semantic_section, slice_section, usage_section};

use crate::certificates::put_certificates;
use crate::flows::put_flows;
use crate::inputs::put_inputs;
use crate::paths::put_paths;
use crate::slices::put_slices;
use crate::tables::put_tables;
use crate::threats::put_threats;
use crate::usage::put_usage;
use form_text::put;
use il_edge::{Failed, Sink};
use report::ProcReport;

/// Writes the section on the use of variables, or that it is not given for an irreducible procedure. `Failed` comes only
/// where the sink's count of faults rose in this call, and then a prefix of the section was written. It costs time
/// linear in the text, and so do the others.
#[tactic(auto, unfolding(crate::specs::Report::usage_section))]
pub(crate) fn put_usage_section<K: Sink>(part: &ProcReport, sink: &mut K) -> Result<(), Failed>
    ensures text { Writes (K.held sink.old) (K.held sink.new) result (usage_section part.now) }
    ensures told { SameTold (K.held sink.old) (K.held sink.new) }
    ensures settled { K.settled sink.new ≡ K.settled sink.old }
    ensures cause { HasCause (K.faults sink.old) (K.faults sink.new) result }
{
    match &part.analyses {
        None => put(sink, &[b"USE\nNOT REPORTED IRREDUCIBLE\n"]),
        Some(analyses) => put_usage(part.places.as_slice(), analyses.usage.as_slice(), sink),
    }
}

/// Writes the section on the flow of information, or that it is not given. It fails as the one on use does.
#[tactic(auto, unfolding(crate::specs::Report::flow_section))]
pub(crate) fn put_flow_section<K: Sink>(part: &ProcReport, sink: &mut K) -> Result<(), Failed>
    ensures text { Writes (K.held sink.old) (K.held sink.new) result (flow_section part.now) }
    ensures told { SameTold (K.held sink.old) (K.held sink.new) }
    ensures settled { K.settled sink.new ≡ K.settled sink.old }
    ensures cause { HasCause (K.faults sink.old) (K.faults sink.new) result }
{
    match &part.analyses {
        None => put(sink, &[b"FLOW\nNOT REPORTED IRREDUCIBLE\n"]),
        Some(analyses) => put_flows(part.places.as_slice(), analyses.flows.as_slice(), sink),
    }
}

/// Writes the section on slices, or that it is not given. It fails as the one on use does.
#[tactic(auto, unfolding(crate::specs::Report::slice_section))]
pub(crate) fn put_slice_section<K: Sink>(part: &ProcReport, sink: &mut K) -> Result<(), Failed>
    ensures { Puts K.held K.settled K.faults sink.old sink.new result (slice_section part.now) }
{
    match &part.analyses {
        None => put(sink, &[b"SLICE\nNOT REPORTED IRREDUCIBLE\n"]),
        Some(analyses) => put_slices(part.places.as_slice(), analyses.slices.as_slice(), sink),
    }
}

/// Writes the section on paths, or that it is not given. It fails as the one on use does.
#[tactic(auto, unfolding(crate::specs::Report::paths_section))]
pub(crate) fn put_paths_section<K: Sink>(part: &ProcReport, sink: &mut K) -> Result<(), Failed>
    ensures text { Writes (K.held sink.old) (K.held sink.new) result (paths_section part.now) }
    ensures told { SameTold (K.held sink.old) (K.held sink.new) }
    ensures settled { K.settled sink.new ≡ K.settled sink.old }
    ensures cause { HasCause (K.faults sink.old) (K.faults sink.new) result }
{
    match &part.analyses {
        None => put(sink, &[b"PATHS\nNOT REPORTED IRREDUCIBLE\n"]),
        Some(analyses) => put_paths(part.arcs.as_slice(), &analyses.paths, sink),
    }
}

/// Writes the section on tables, or that it is not given. It fails as the one on use does.
#[tactic(auto, unfolding(crate::specs::Report::semantic_section))]
pub(crate) fn put_semantic_section<K: Sink>(part: &ProcReport, sink: &mut K) -> Result<(), Failed>
    ensures { Puts K.held K.settled K.faults sink.old sink.new result (semantic_section part.now) }
{
    match &part.analyses {
        None => put(sink, &[b"SEMANTIC\nNOT REPORTED IRREDUCIBLE\n"]),
        Some(analyses) => put_tables(part.places.as_slice(), analyses.tables.as_slice(), sink),
    }
}

/// Writes the section on test inputs, or that it is not given. It fails as the one on use does.
#[tactic(auto, unfolding(crate::specs::Report::inputs_section))]
pub(crate) fn put_inputs_section<K: Sink>(part: &ProcReport, sink: &mut K) -> Result<(), Failed>
    ensures { Puts K.held K.settled K.faults sink.old sink.new result (inputs_section part.now) }
{
    match &part.analyses {
        None => put(sink, &[b"INPUTS\nNOT REPORTED IRREDUCIBLE\n"]),
        Some(analyses) => put_inputs(
            part.places.as_slice(),
            analyses.tables.as_slice(),
            analyses.inputs.as_slice(),
            sink,
        ),
    }
}

/// Writes the section on threats, or that it is not given. It fails as the one on use does.
#[tactic(auto, unfolding(crate::specs::Report::compliance_section))]
pub(crate) fn put_compliance_section<K: Sink>(part: &ProcReport, sink: &mut K) -> Result<(), Failed>
    ensures { Puts K.held K.settled K.faults sink.old sink.new result (compliance_section part.now) }
{
    match &part.analyses {
        None => put(sink, &[b"COMPLIANCE\nNOT REPORTED IRREDUCIBLE\n"]),
        Some(analyses) => put_threats(
            part.places.as_slice(),
            analyses.tables.as_slice(),
            analyses.threats.as_slice(),
            sink,
        ),
    }
}

/// Writes the section on certificates, or that it is not given. It fails as the one on use does.
#[tactic(auto, unfolding(crate::specs::Report::certificates_section))]
pub(crate) fn put_certificates_section<K: Sink>(
    part: &ProcReport,
    sink: &mut K,
) -> Result<(), Failed>
    ensures { Puts K.held K.settled K.faults sink.old sink.new result (certificates_section part.now) }
{
    match &part.analyses {
        None => put(sink, &[b"CERTIFICATES\nNOT REPORTED IRREDUCIBLE\n"]),
        Some(analyses) => put_certificates(part.certs.as_slice(), analyses.made.as_slice(), sink),
    }
}
