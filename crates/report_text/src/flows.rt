ghost use Rattle.std.specs.Prelude.{◌≡◌, ◌++◌, codes};
ghost use Rattle.std.specs.List.{flat_map};
ghost use Rattle.il_edge.specs.Faults.{HasCause};
ghost use Rattle.il_edge.specs.Known.{SameTold};
ghost use Rattle.form_text.specs.Lists.{place_at};
ghost use Rattle.form_text.specs.Pieces.{Writes};
ghost use Rattle.report_text.specs.Sections.{flow_text, flows_text};

use crate::lists::{put_lines, put_names};
use form_text::{place_name, put};
use il_core::Place;
use il_edge::{Failed, Sink};
use info_flow::FlowRow;

fn put_variable<K: Sink>(places: &[Place], at: usize, sink: &mut K) -> Result<(), Failed>
    ensures text { Writes (K.held sink.old) (K.held sink.new) result (codes "VAR " ++ place_at places.now at ++ codes " FROM ") }
    ensures told { SameTold (K.held sink.old) (K.held sink.new) }
    ensures settled { K.settled sink.new ≡ K.settled sink.old }
    ensures cause { HasCause (K.faults sink.old) (K.faults sink.new) result }
{
    let (mark, name) = place_name(places, at);
    put(sink, &[b"VAR ", mark, name, b" FROM "])
}

/// Writes the sources and the deciding tests of a variable.
fn put_flow<K: Sink>(places: &[Place], row: &FlowRow, sink: &mut K) -> Result<(), Failed>
    ensures text { Writes (K.held sink.old) (K.held sink.new) result (flow_text places.now row.now) }
    ensures told { SameTold (K.held sink.old) (K.held sink.new) }
    ensures settled { K.settled sink.new ≡ K.settled sink.old }
    ensures cause { HasCause (K.faults sink.old) (K.faults sink.new) result }
{
    put_variable(places, row.place, sink)?;
    put_names(places, row.sources.as_slice(), sink)?;
    put(sink, &[b" TESTS "])?;
    put_lines(row.tests.as_slice(), sink)?;
    put(sink, &[b"\n"])
}

fn put_flow_rows<K: Sink>(places: &[Place], rows: &[FlowRow], sink: &mut K) -> Result<(), Failed>
    ensures text { Writes (K.held sink.old) (K.held sink.new) result (flat_map (flow_text places.now) rows.now) }
    ensures told { SameTold (K.held sink.old) (K.held sink.new) }
    ensures settled { K.settled sink.new ≡ K.settled sink.old }
    ensures cause { HasCause (K.faults sink.old) (K.faults sink.new) result }
{
    for row in rows {
        match put_flow(places, row, sink) {
            Ok(()) => {}
            Err(failed) => return Err(failed),
        }
    }
    Ok(())
}

/// Writes the section on the flow of information: one line for each row. `Failed` comes only where the sink's count of
/// faults rose in this call, and then a prefix of the section was written. It costs time linear in the text.
pub(crate) fn put_flows<K: Sink>(
    places: &[Place],
    rows: &[FlowRow],
    sink: &mut K,
) -> Result<(), Failed>
    ensures text { Writes (K.held sink.old) (K.held sink.new) result (flows_text places.now rows.now) }
    ensures told { SameTold (K.held sink.old) (K.held sink.new) }
    ensures settled { K.settled sink.new ≡ K.settled sink.old }
    ensures cause { HasCause (K.faults sink.old) (K.faults sink.new) result }
{
    put(sink, &[b"FLOW\n"])?;
    put_flow_rows(places, rows, sink)
}
