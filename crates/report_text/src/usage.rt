ghost use Rattle.std.specs.Prelude.{◌≡◌};
ghost use Rattle.std.specs.List.{flat_map};
ghost use Rattle.il_edge.specs.Faults.{HasCause};
ghost use Rattle.il_edge.specs.Known.{SameTold};
ghost use Rattle.form_text.specs.Pieces.{Writes};
ghost use Rattle.report_text.specs.Sections.{usage_text, use_text, yes};

use data_use::UseRow;
use form_text::{place_name, put};
use il_core::Place;
use il_edge::{Failed, Sink};

fn letter_of(fact: &bool) -> &[u8]
    ensures { result.now ≡ yes fact.now }
{
    if *fact { b"Y" } else { b"N" }
}

/// Writes the six facts of a variable.
fn put_use<K: Sink>(places: &[Place], row: &UseRow, sink: &mut K) -> Result<(), Failed>
    ensures text { Writes (K.held sink.old) (K.held sink.new) result (use_text places.now row.now) }
    ensures told { SameTold (K.held sink.old) (K.held sink.new) }
    ensures settled { K.settled sink.new ≡ K.settled sink.old }
    ensures cause { HasCause (K.faults sink.old) (K.faults sink.new) result }
{
    let (mark, name) = place_name(places, row.place);
    put(
        sink,
        &[
            b"VAR ",
            mark,
            name,
            b" RF=",
            letter_of(&row.read_first),
            b" OW=",
            letter_of(&row.overwritten),
            b" LW=",
            letter_of(&row.last_write),
            b" NR=",
            letter_of(&row.never_read),
            b" NW=",
            letter_of(&row.never_written),
            b" EU=",
            letter_of(&row.end_unwritten),
            b"\n",
        ],
    )
}

fn put_uses<K: Sink>(places: &[Place], rows: &[UseRow], sink: &mut K) -> Result<(), Failed>
    ensures text { Writes (K.held sink.old) (K.held sink.new) result (flat_map (use_text places.now) rows.now) }
    ensures told { SameTold (K.held sink.old) (K.held sink.new) }
    ensures settled { K.settled sink.new ≡ K.settled sink.old }
    ensures cause { HasCause (K.faults sink.old) (K.faults sink.new) result }
{
    for row in rows {
        match put_use(places, row, sink) {
            Ok(()) => {}
            Err(failed) => return Err(failed),
        }
    }
    Ok(())
}

/// Writes the section on the use of variables: one line for each row. `Failed` comes only where the sink's count of
/// faults rose in this call, and then a prefix of the section was written. It costs time linear in the text.
pub(crate) fn put_usage<K: Sink>(
    places: &[Place],
    rows: &[UseRow],
    sink: &mut K,
) -> Result<(), Failed>
    ensures text { Writes (K.held sink.old) (K.held sink.new) result (usage_text places.now rows.now) }
    ensures told { SameTold (K.held sink.old) (K.held sink.new) }
    ensures settled { K.settled sink.new ≡ K.settled sink.old }
    ensures cause { HasCause (K.faults sink.old) (K.faults sink.new) result }
{
    put(sink, &[b"USE\n"])?;
    put_uses(places, rows, sink)
}
