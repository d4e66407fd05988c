ghost use Rattle.std.specs.Prelude.{◌≡◌, ◌≤◌, None, Some, length};
ghost use Rattle.il_edge.specs.Known.{SameTold, Took};
ghost use Rattle.report_text.specs.Refusal.{refusal_text, words_text};
ghost use Rattle.malpas.specs.Answer.{JudgesBytes, Judges, Settles, Sends};
ghost use Rattle.malpas.specs.Input.{text_limit, too_long};

use crate::input::{Input, read_input};
use crate::top::Outcome;
use il_core::{Code, Refusal, TextEnd};
use il_edge::{Failed, ReadEnd, Sink, Source, read_all};
use report_text::{put_refusal, put_words};
use std::alloc::Global;

/// The greatest number of bytes of an input.
const TEXT_LIMIT: usize = 1_048_576;

/// What the bytes of a source are.
#[derive(Drop)]
pub(crate) enum Judged {
    /// An input that is accepted.
    Accepted(Input),
    /// An input with its first refusal.
    Refused(Refusal),
    /// Too many bytes.
    TooLong,
    /// Not known: the source failed.
    ReadFault,
    /// Not known: memory ran out.
    NoMemory,
}

/// The refusal of an input with too many bytes, at the first byte too many.
pub(crate) fn too_long_refusal() -> Refusal
    ensures { result ≡ too_long }
{
    Refusal {
        code: Code::TooLong,
        place: TEXT_LIMIT,
        name: None,
    }
}

/// What an input of few enough bytes is.
fn judge_bytes(alloc: Global, bytes: &[u8], certificates: bool) -> Judged
    requires { length bytes.now ≤ text_limit }
    ensures { JudgesBytes certificates bytes.now result }
{
    match read_input(alloc, bytes, certificates) {
        Ok(input) => Judged::Accepted(input),
        Err(TextEnd::Refused(refusal)) => Judged::Refused(refusal),
        Err(TextEnd::NoMemory) => Judged::NoMemory,
    }
}

/// What the bytes of a source are, which is read to its end, with or without certificates behind the text.
pub(crate) fn judge<S: Source>(alloc: Global, source: &mut S, certificates: bool) -> Judged
    ensures judged { Judges certificates (S.left source.old) (S.left source.new) (S.faults source.old) (S.faults source.new) result }
    ensures taken { Took (S.left source.old) (S.left source.new) }
    ensures told { SameTold (S.left source.old) (S.left source.new) }
    ensures later { S.faults source.old ≤ S.faults source.new }
{
    match read_all(alloc, source, TEXT_LIMIT) {
        Ok(bytes) => judge_bytes(alloc, bytes.as_slice(), certificates),
        Err(ReadEnd::Fault) => Judged::ReadFault,
        Err(ReadEnd::TooLong) => Judged::TooLong,
        Err(ReadEnd::NoMemory) => Judged::NoMemory,
    }
}

/// Settles what was put into the sink and answers `status`; where putting or settling failed, it answers 4.
pub(crate) fn settle<K: Sink>(sink: &mut K, put: Result<(), Failed>, status: u8) -> u8
    ensures same { K.held sink.new ≡ K.held sink.old }
    ensures ends { Settles (K.held sink.new) (K.settled sink.old) (K.settled sink.new) (K.faults sink.old) (K.faults sink.new) put status result }
    ensures later { K.faults sink.old ≤ K.faults sink.new }
{
    match put {
        Ok(()) => match sink.flush() {
            Ok(()) => status,
            Err(Failed) => 4,
        },
        Err(Failed) => 4,
    }
}

/// Writes the line of a refusal, and settles it.
pub(crate) fn refuse<K: Sink>(refusal: Refusal, sink: &mut K) -> Outcome
    ensures sent { Sends (K.held sink.old) (K.held sink.new) (K.settled sink.old) (K.settled sink.new)
        (K.faults sink.old) (K.faults sink.new) (refusal_text refusal) 2 result.status }
    ensures refusal { result.refusal ≡ Some refusal }
    ensures report { result.report ≡ None }
    ensures told { SameTold (K.held sink.old) (K.held sink.new) }
    ensures later { K.faults sink.old ≤ K.faults sink.new }
{
    let put = put_refusal(&refusal, sink);
    let status = settle(sink, put, 2);
    Outcome {
        status,
        refusal: Some(refusal),
        report: None,
    }
}

/// Writes the line that says that the words are not understood, and settles it.
pub(crate) fn answer_words<K: Sink>(sink: &mut K) -> Outcome
    ensures sent { Sends (K.held sink.old) (K.held sink.new) (K.settled sink.old) (K.settled sink.new)
        (K.faults sink.old) (K.faults sink.new) words_text 6 result.status }
    ensures refusal { result.refusal ≡ None }
    ensures report { result.report ≡ None }
    ensures told { SameTold (K.held sink.old) (K.held sink.new) }
    ensures later { K.faults sink.old ≤ K.faults sink.new }
{
    let put = put_words(sink);
    let status = settle(sink, put, 6);
    Outcome {
        status,
        refusal: None,
        report: None,
    }
}

/// The outcome where nothing is to be written.
pub(crate) fn silent(status: u8) -> Outcome
    ensures { result ≡ record { status = status; refusal = None; report = None } }
{
    Outcome {
        status,
        refusal: None,
        report: None,
    }
}
