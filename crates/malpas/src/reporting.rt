ghost use Rattle.std.specs.Prelude.{◌≡◌, ◌<◌, ◌≤◌, [], None, length, IfSome};
ghost use Rattle.il_core.specs.Text.{text_of};
ghost use Rattle.il_inline.specs.Expanded.{IsExpandedText, whole_of};
ghost use Rattle.il_edge.specs.Faults.{HasCause};
ghost use Rattle.il_edge.specs.Known.{SameTold};
ghost use Rattle.form_text.specs.Pieces.{Writes};
ghost use Rattle.report_text.specs.Report.{end_text};
ghost use Rattle.report.specs.Headline.{IsTold};
ghost use Rattle.report.specs.Status.{status_of};
ghost use Rattle.malpas.specs.Answer.{Sends};
ghost use Rattle.malpas.specs.Parts.{first_text, next_text, SendsNext, SendsParts, Reports};

use crate::answer::settle;
use crate::input::Input;
use crate::top::Outcome;
use il_core::{List, NoMemory};
use il_edge::{Failed, Sink};
use malpas_suite::analyse_proc;
use report::{Report, status_of};
use report_text::{put_end, put_head, put_part};
use request::Selection;
use std::alloc::Global;

/// Why the parts of a text's procedures are not all written.
#[derive(Clone, Copy)]
enum PartsEnd {
    /// The sink failed.
    Failed,
    /// Memory ran out.
    NoMemory,
}

/// Writes the head of a report that has one procedure, and nothing otherwise.
fn put_first<K: Sink>(report: &Report, sink: &mut K) -> Result<(), Failed>
    ensures text { Writes (K.held sink.old) (K.held sink.new) result (first_text report.now) }
    ensures told { SameTold (K.held sink.old) (K.held sink.new) }
    ensures settled { K.settled sink.new ≡ K.settled sink.old }
    ensures cause { HasCause (K.faults sink.old) (K.faults sink.new) result }
{
    if report.procs.len() == 1 {
        put_head(report, sink)
    } else {
        Ok(())
    }
}

/// Writes the part of the last procedure of a report, with the head before it where it is the first.
fn put_next<K: Sink>(report: &Report, selection: Selection, sink: &mut K) -> Result<(), Failed>
    requires { 0 < length report.now.procs }
    ensures text { Writes (K.held sink.old) (K.held sink.new) result (next_text selection report.now) }
    ensures told { SameTold (K.held sink.old) (K.held sink.new) }
    ensures settled { K.settled sink.new ≡ K.settled sink.old }
    ensures cause { HasCause (K.faults sink.old) (K.faults sink.new) result }
{
    let Some(part) = report.procs.as_slice().last() else {
        unreachable!()
    };
    match put_first(report, sink) {
        Ok(()) => put_part(part, selection, sink),
        Err(failed) => Err(failed),
    }
}

/// Writes the part of the last procedure of a report, with the head before it where it is the first, and settles it.
fn write_next<K: Sink>(report: &Report, selection: Selection, sink: &mut K) -> Result<(), Failed>
    requires { 0 < length report.now.procs }
    ensures sent { SendsNext selection (K.held sink.old) (K.held sink.new) (K.settled sink.old) (K.settled sink.new)
        (K.faults sink.old) (K.faults sink.new) report.now result }
    ensures told { SameTold (K.held sink.old) (K.held sink.new) }
    ensures later { K.faults sink.old ≤ K.faults sink.new }
{
    match put_next(report, selection, sink) {
        Ok(()) => sink.flush(),
        Err(failed) => Err(failed),
    }
}

/// Makes the report of each procedure of an input, adds it to `report`, which has none, and writes its part, before it
/// makes the next.
fn write_parts<K: Sink>(
    alloc: Global,
    input: &Input,
    selection: Selection,
    report: &mut Report,
    sink: &mut K,
) -> Result<(), PartsEnd>
    requires fits { IsExpandedText input.now.text }
    requires title { report.old.title ≡ input.now.text.text.title }
    requires profile { report.old.profile ≡ input.now.text.text.profile }
    requires none { report.old.procs ≡ [] }
    ensures told_of { IsTold input.now.certs (whole_of input.now.text) report.new }
    ensures sent { SendsParts selection (K.held sink.old) (K.held sink.new) (K.settled sink.new)
        (K.faults sink.old) (K.faults sink.new) (length input.now.text.text.procs) report.new result }
    ensures untouched { report.new.procs ≡ [] → sink.new ≡ sink.old }
    ensures told { SameTold (K.held sink.old) (K.held sink.new) }
    ensures later { K.faults sink.old ≤ K.faults sink.new }
{
    let certs = input.certs.as_slice();
    for number in 0..input.text.text.procs().len() {
        let part = match analyse_proc(alloc, &input.text, number, certs) {
            Ok(part) => part,
            Err(NoMemory) => return Err(PartsEnd::NoMemory),
        };
        match report.procs.push(part) {
            Ok(()) => {}
            Err(NoMemory) => return Err(PartsEnd::NoMemory),
        }
        match write_next(report, selection, sink) {
            Ok(()) => {}
            Err(Failed) => return Err(PartsEnd::Failed),
        }
    }
    Ok(())
}

/// Writes the line with the status of a report, settles it and answers the status.
fn write_end<K: Sink>(report: &Report, sink: &mut K) -> u8
    ensures sent { Sends (K.held sink.old) (K.held sink.new) (K.settled sink.old) (K.settled sink.new)
        (K.faults sink.old) (K.faults sink.new) (end_text (status_of report.now)) (status_of report.now) result }
    ensures low { status_of report.now ≤ 1 }
    ensures told { SameTold (K.held sink.old) (K.held sink.new) }
    ensures later { K.faults sink.old ≤ K.faults sink.new }
{
    let status = status_of(report);
    let put = put_end(status, sink);
    settle(sink, put, status)
}

/// Makes and writes the report of an input, procedure by procedure.
pub(crate) fn report_on<K: Sink>(
    alloc: Global,
    input: &Input,
    selection: Selection,
    sink: &mut K,
) -> Outcome
    requires { IsExpandedText input.now.text }
    ensures refusal { result.refusal ≡ None }
    ensures told_of { IfSome result.report (λ report. IsTold input.now.certs (whole_of input.now.text) report × (0 < length report.procs)) }
    ensures written { Reports selection (K.held sink.old) (K.held sink.new) (K.settled sink.new)
        (K.faults sink.old) (K.faults sink.new) (text_of input.now.text.text) result.report result.status }
    ensures untouched { result.report ≡ None → sink.new ≡ sink.old }
    ensures told { SameTold (K.held sink.old) (K.held sink.new) }
    ensures later { K.faults sink.old ≤ K.faults sink.new }
{
    let mut report = Report {
        profile: input.text.text.profile(),
        title: input.text.text.title(),
        procs: List::new(alloc),
    };
    let status = match write_parts(alloc, input, selection, &mut report, sink) {
        Ok(()) => write_end(&report, sink),
        Err(PartsEnd::Failed) => 4,
        Err(PartsEnd::NoMemory) => 5,
    };
    let reported = !report.procs.is_empty();
    Outcome {
        status,
        refusal: None,
        report: reported.then_some(report),
    }
}
