ghost use Rattle.std.specs.Prelude.{◌≡◌, ◌≢◌, ◌<◌, ◌≤◌, ◌⊎◌, false, [], None, length, IfSome, MatchResult};
ghost use Rattle.il_core.specs.Text.{text_of};
ghost use Rattle.il_edge.specs.Faults.{Rose};
ghost use Rattle.il_edge.specs.Known.{SameTold, Appends, AppendsPrefix, IsSettled};
ghost use Rattle.acceptance.specs.Acceptance.{AcceptGives, HasRefusal};
ghost use Rattle.il_inline.specs.Expanded.{IsExpandedText, whole_of};
ghost use Rattle.made_text.specs.Made.{made_text};
ghost use Rattle.report.specs.Headline.{IsTold};
ghost use Rattle.report.specs.Status.{status_of};
ghost use Rattle.summary_text.specs.Summary.{summary_text};
ghost use Rattle.malpas.specs.Answer.{Sends};
ghost use Rattle.malpas.specs.Made.{IsMadeReported, Summarises};
ghost use Rattle.malpas.specs.Top.{HasStatus, line_text, IsWritten, IsForWords, BelongsTo};

use crate::answer::{refuse, settle, silent};
use crate::top::Outcome;
use acceptance::accept;
use il_core::{List, NoMemory, TextEnd};
use il_edge::Sink;
use il_inline::Expanded;
use made_text::make_text;
use malpas_suite::analyse_proc;
use report::{Report, status_of};
use std::alloc::Global;
use summary_text::put_summary;

/// The expansion of the made text of a number.
fn accept_made(alloc: Global, number: u8) -> Result<Expanded, TextEnd>
    requires { (1 ≤ number) × (number ≤ 200) }
    ensures { AcceptGives (made_text number) result }
{
    match make_text(alloc, number) {
        Ok(text) => accept(alloc, text.as_slice()),
        Err(NoMemory) => Err(TextEnd::NoMemory),
    }
}

/// Makes the report of each procedure of a text, and adds it to `report`, which has none.
fn make_parts(alloc: Global, text: &Expanded, report: &mut Report) -> Result<(), NoMemory>
    requires fits { IsExpandedText text.now }
    requires title { report.old.title ≡ text.now.text.title }
    requires profile { report.old.profile ≡ text.now.text.profile }
    requires none { report.old.procs ≡ [] }
    ensures told_of { IsTold [] (whole_of text.now) report.new }
    ensures made { MatchResult result (λ _. length report.new.procs ≡ length text.now.text.procs) (λ _. length report.new.procs < length text.now.text.procs) }
{
    for number in 0..text.text.procs().len() {
        let part = match analyse_proc(alloc, text, number, &[]) {
            Ok(part) => part,
            Err(NoMemory) => return Err(NoMemory),
        };
        match report.procs.push(part) {
            Ok(()) => {}
            Err(NoMemory) => return Err(NoMemory),
        }
    }
    Ok(())
}

/// Writes the summary of a report, settles it and answers the status of the report.
fn write_summary<K: Sink>(number: u8, report: &Report, sink: &mut K) -> u8
    ensures sent { Sends (K.held sink.old) (K.held sink.new) (K.settled sink.old) (K.settled sink.new)
        (K.faults sink.old) (K.faults sink.new) (summary_text number report.now) (status_of report.now) result }
    ensures low { status_of report.now ≤ 1 }
    ensures told { SameTold (K.held sink.old) (K.held sink.new) }
    ensures later { K.faults sink.old ≤ K.faults sink.new }
{
    let status = status_of(report);
    let put = put_summary(number, report, sink);
    settle(sink, put, status)
}

/// Makes the report of a made text, and then writes its summary.
fn summarise<K: Sink>(alloc: Global, number: u8, text: &Expanded, sink: &mut K) -> Outcome
    requires { IsExpandedText text.now }
    ensures refusal { result.refusal ≡ None }
    ensures told_of { IfSome result.report (λ report. IsTold [] (whole_of text.now) report × (0 < length report.procs)) }
    ensures written { Summarises number (K.held sink.old) (K.held sink.new) (K.settled sink.old) (K.settled sink.new)
        (K.faults sink.old) (K.faults sink.new) (text_of text.now.text) result.report result.status }
    ensures untouched { result.status ≡ 5 → sink.new ≡ sink.old }
    ensures told { SameTold (K.held sink.old) (K.held sink.new) }
    ensures later { K.faults sink.old ≤ K.faults sink.new }
{
    let mut report = Report {
        profile: text.text.profile(),
        title: text.text.title(),
        procs: List::new(alloc),
    };
    let status = match make_parts(alloc, text, &mut report) {
        Ok(()) => write_summary(number, &report, sink),
        Err(NoMemory) => 5,
    };
    let reported = !report.procs.is_empty();
    Outcome {
        status,
        refusal: None,
        report: reported.then_some(report),
    }
}

/// Makes the text of a number from 1 to 200 and its report, and writes the summary.
pub(crate) fn answer_made<K: Sink>(alloc: Global, number: u8, sink: &mut K) -> Outcome
    requires { (1 ≤ number) × (number ≤ 200) }
    ensures understood { ¬ (IsForWords result) }
    ensures refusal { IfSome result.refusal (HasRefusal (made_text number)) }
    ensures headline { IfSome result.report (IsMadeReported number (K.held sink.old) (K.held sink.new) result.status) }
    ensures status { HasStatus result.refusal result.report result.status }
    ensures unread { result.status ≢ 3 }
    ensures line { IsWritten result.status → result.report ≡ None → Appends (K.held sink.old) (K.held sink.new) (line_text result.refusal) }
    ensures written { IsWritten result.status → IfSome result.report (λ report. Appends (K.held sink.old) (K.held sink.new) (summary_text number report)) }
    ensures settled { IsWritten result.status → IsSettled (K.held sink.new) (K.settled sink.new) }
    ensures silent { result.status ≡ 5 → sink.new ≡ sink.old }
    ensures part { result.status ≡ 4 → result.report ≡ None → AppendsPrefix (K.held sink.old) (K.held sink.new) (line_text result.refusal) }
    ensures unsettled { result.status ≡ 4 → K.settled sink.new ≡ K.settled sink.old }
    ensures write_fault { result.status ≡ 4 → Rose (K.faults sink.old) (K.faults sink.new) }
    ensures complete { ¬ (Rose (K.faults sink.old) (K.faults sink.new)) → (result.status ≡ 5) ⊎ BelongsTo false (made_text number) result.refusal result.report result.status }
    ensures sink { SameTold (K.held sink.old) (K.held sink.new) × (K.faults sink.old ≤ K.faults sink.new) }
{
    match accept_made(alloc, number) {
        Ok(text) => summarise(alloc, number, &text, sink),
        Err(TextEnd::Refused(refusal)) => refuse(refusal, sink),
        Err(TextEnd::NoMemory) => silent(5),
    }
}
