//! How what is found is answered.
ghost use Rattle.std.specs.Prelude.{◌≡◌, ◌≤◌};
ghost use Rattle.il_edge.specs.Known.{SameTold};
ghost use Rattle.report_text.specs.Refusal.{refusal_text};
ghost use Rattle.malpas_literals.specs.Listing.{listing_text};
ghost use Rattle.malpas_literals.specs.Answer.{Settles, Sends, AnswersBy, IsNothing};

use crate::listing::put_listing;
use crate::text::Found;
use crate::threats::Threatened;
use il_core::Refusal;
use il_edge::{Failed, Sink};
use report_text::put_refusal;

/// Settles what was put into the sink and answers `status`; where putting or settling failed, it answers 4.
fn settle<K: Sink>(sink: &mut K, put: Result<(), Failed>, status: u8) -> u8
    ensures same { K.held sink.new ≡ K.held sink.old }
    ensures ends { Settles (K.held sink.new) (K.settled sink.old) (K.settled sink.new) (K.faults sink.old) (K.faults sink.new) put status result }
    ensures later { K.faults sink.old ≤ K.faults sink.new }
{
    match put {
        Ok(()) => match sink.flush() {
            Ok(()) => status,
            Err(Failed) => 4,
        },
        Err(Failed) => 4,
    }
}

/// Writes the line of a refusal, and settles it.
fn send_refusal<K: Sink>(refusal: &Refusal, sink: &mut K) -> u8
    ensures sent { Sends (K.held sink.old) (K.held sink.new) (K.settled sink.old) (K.settled sink.new)
        (K.faults sink.old) (K.faults sink.new) (refusal_text refusal.now) 2 result }
    ensures told { SameTold (K.held sink.old) (K.held sink.new) }
    ensures later { K.faults sink.old ≤ K.faults sink.new }
{
    let put = put_refusal(refusal, sink);
    settle(sink, put, 2)
}

/// Writes the listing of procedures with their threats, and settles it.
fn send_listing<K: Sink>(all: &[Threatened], sink: &mut K) -> u8
    ensures sent { Sends (K.held sink.old) (K.held sink.new) (K.settled sink.old) (K.settled sink.new)
        (K.faults sink.old) (K.faults sink.new) (listing_text all.now) 0 result }
    ensures told { SameTold (K.held sink.old) (K.held sink.new) }
    ensures later { K.faults sink.old ≤ K.faults sink.new }
{
    let put = put_listing(all, sink);
    settle(sink, put, 0)
}

/// Answers what is found.
pub(crate) fn send<K: Sink>(found: &Found, sink: &mut K) -> u8
    ensures sent { AnswersBy (K.held sink.old) (K.held sink.new) (K.settled sink.old) (K.settled sink.new)
        (K.faults sink.old) (K.faults sink.new) found.now result }
    ensures silent { IsNothing found.now → sink.new ≡ sink.old }
    ensures told { SameTold (K.held sink.old) (K.held sink.new) }
    ensures later { K.faults sink.old ≤ K.faults sink.new }
{
    match found {
        Found::Threats(all) => send_listing(all.as_slice(), sink),
        Found::Refused(refusal) => send_refusal(refusal, sink),
        Found::ReadFault => 3,
        Found::NoMemory => 5,
    }
}
