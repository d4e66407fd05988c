//! The lines that tell of calls.
ghost use Rattle.std.specs.Prelude.{◌≡◌};
ghost use Rattle.form_text.specs.Pieces.{Puts};
ghost use Rattle.report_text.specs.Calls.{call_text, calls_text};

use form_text::put;
use il_edge::{Failed, Sink};
use itoa::Buffer;
use report::CallLine;

/// Writes the line of a call.
#[tactic(auto, unfolding(crate::specs::Calls::call_text))]
fn put_call<K: Sink>(call: &CallLine, sink: &mut K) -> Result<(), Failed>
    ensures { Puts K.held K.settled K.faults sink.old sink.new result (call_text call.now) }
{
    let mut first = Buffer::new();
    let mut last = Buffer::new();
    put(
        sink,
        &[
            b"EXPANDED L",
            first.format(call.first).as_bytes(),
            b" L",
            last.format(call.last).as_bytes(),
            b" ",
            call.callee.as_bytes(),
            b"\n",
        ],
    )
}

/// Writes a line for each call of a procedure: its first and its last line, and the name of the procedure called. `Failed` comes
/// only where the sink's count of faults rose in this call, and then a prefix of the lines was written. Linear in the calls.
pub(crate) fn put_calls<K: Sink>(calls: &[CallLine], sink: &mut K) -> Result<(), Failed>
    ensures { Puts K.held K.settled K.faults sink.old sink.new result (calls_text calls.now) }
{
    for call in calls {
        match put_call(call, sink) {
            Ok(()) => {}
            Err(failed) => return Err(failed),
        }
    }
    Ok(())
}
