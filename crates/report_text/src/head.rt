ghost use Rattle.std.specs.Prelude.{◌≡◌, ◌≤◌};
ghost use Rattle.il_edge.specs.Faults.{HasCause};
ghost use Rattle.il_edge.specs.Known.{SameTold};
ghost use Rattle.form_text.specs.Pieces.{Writes};
ghost use Rattle.report_text.specs.Report.{end_text, head_text};

use form_text::put;
use il_edge::{Failed, Sink};
use itoa::Buffer;
use report::Report;

/// Writes the first two lines of a report: the profile of the text, and its title. `Failed` comes only where the sink's
/// count of faults rose in this call, and then a prefix of the lines was written. It takes no memory and leaves what is
/// settled as it was.
#[tactic(auto, unfolding(crate::specs::Report::head_text))]
pub fn put_head<K: Sink>(report: &Report, sink: &mut K) -> Result<(), Failed>
    ensures text { Writes (K.held sink.old) (K.held sink.new) result (head_text report.now) }
    ensures told { SameTold (K.held sink.old) (K.held sink.new) }
    ensures settled { K.settled sink.new ≡ K.settled sink.old }
    ensures cause { HasCause (K.faults sink.old) (K.faults sink.new) result }
{
    let mut profile = Buffer::new();
    put(
        sink,
        &[
            b"MALPAS PROFILE ",
            profile.format(report.profile).as_bytes(),
            b"\nTITLE ",
            report.title.as_bytes(),
            b"\n",
        ],
    )
}

/// Writes the last line of a report: its status. Condition: the status is 0 or 1. `Failed` comes only where the sink's
/// count of faults rose in this call, and then a prefix of the line was written. It takes no memory and leaves what is
/// settled as it was.
#[tactic(auto, unfolding(crate::specs::Report::end_text))]
pub fn put_end<K: Sink>(status: u8, sink: &mut K) -> Result<(), Failed>
    requires { status ≤ 1 }
    ensures text { Writes (K.held sink.old) (K.held sink.new) result (end_text status) }
    ensures told { SameTold (K.held sink.old) (K.held sink.new) }
    ensures settled { K.settled sink.new ≡ K.settled sink.old }
    ensures cause { HasCause (K.faults sink.old) (K.faults sink.new) result }
{
    let mut digits = Buffer::new();
    put(sink, &[b"STATUS ", digits.format(status).as_bytes(), b"\n"])
}
