ghost use Rattle.std.specs.Prelude.{◌≡◌};
ghost use Rattle.il_edge.specs.Faults.{HasCause};
ghost use Rattle.il_edge.specs.Known.{SameTold};
ghost use Rattle.form_text.specs.Pieces.{Writes};
ghost use Rattle.summary_text.specs.Summary.{sizes_text, summary_text, verdicts_text};

use crate::counts::{Counts, counts_of};
use form_text::put;
use il_edge::{Failed, Sink};
use itoa::Buffer;
use report::Report;

/// Writes the first four lines: the number of the made text, lines, regions and rows.
#[tactic(auto, unfolding(crate::specs::Summary::sizes_text))]
fn put_sizes<K: Sink>(number: u8, counts: &Counts, sink: &mut K) -> Result<(), Failed>
    ensures text { Writes (K.held sink.old) (K.held sink.new) result (sizes_text number counts.now) }
    ensures told { SameTold (K.held sink.old) (K.held sink.new) }
    ensures settled { K.settled sink.new ≡ K.settled sink.old }
    ensures cause { HasCause (K.faults sink.old) (K.faults sink.new) result }
{
    let mut generated = Buffer::new();
    let mut lines = Buffer::new();
    let mut regions = Buffer::new();
    let mut rows = Buffer::new();
    put(
        sink,
        &[
            b"GENERATED ",
            generated.format(number).as_bytes(),
            b"\nLINES ",
            lines.format(counts.lines).as_bytes(),
            b"\nREGIONS ",
            regions.format(counts.regions).as_bytes(),
            b"\nROWS ",
            rows.format(counts.rows).as_bytes(),
            b"\n",
        ],
    )
}

/// Writes the last five lines: threats, by their verdicts too, and regions past their size.
#[tactic(auto, unfolding(crate::specs::Summary::verdicts_text))]
fn put_verdicts<K: Sink>(counts: &Counts, sink: &mut K) -> Result<(), Failed>
    ensures text { Writes (K.held sink.old) (K.held sink.new) result (verdicts_text counts.now) }
    ensures told { SameTold (K.held sink.old) (K.held sink.new) }
    ensures settled { K.settled sink.new ≡ K.settled sink.old }
    ensures cause { HasCause (K.faults sink.old) (K.faults sink.new) result }
{
    let mut threats = Buffer::new();
    let mut refuted = Buffer::new();
    let mut shown = Buffer::new();
    let mut left_open = Buffer::new();
    let mut past = Buffer::new();
    put(
        sink,
        &[
            b"THREATS ",
            threats.format(counts.threats).as_bytes(),
            b"\nFALSE ",
            refuted.format(counts.refuted).as_bytes(),
            b"\nSHOWN ",
            shown.format(counts.shown).as_bytes(),
            b"\nOPEN ",
            left_open.format(counts.left_open).as_bytes(),
            b"\nPAST ",
            past.format(counts.past).as_bytes(),
            b"\n",
        ],
    )
}

/// Writes the summary of a report on the made text of a number: nine lines, each a word and a number. The numbers but the
/// first are summed over the procedures, and stop at a `u64`'s last. `Failed` comes only where the sink's count of faults
/// rose in this call, and then a prefix of the summary was written. It takes no memory, leaves what is settled as it was,
/// and costs time linear in the procedures, tables and threats.
pub fn put_summary<K: Sink>(number: u8, report: &Report, sink: &mut K) -> Result<(), Failed>
    ensures text { Writes (K.held sink.old) (K.held sink.new) result (summary_text number report.now) }
    ensures told { SameTold (K.held sink.old) (K.held sink.new) }
    ensures settled { K.settled sink.new ≡ K.settled sink.old }
    ensures cause { HasCause (K.faults sink.old) (K.faults sink.new) result }
{
    let counts = counts_of(report.procs.as_slice());
    match put_sizes(number, &counts, sink) {
        Ok(()) => put_verdicts(&counts, sink),
        Err(failed) => Err(failed),
    }
}
