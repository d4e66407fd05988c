ghost use Rattle.std.specs.Prelude.{◌≡◌, ◌≤◌, ◌⊎◌, ◌++◌, None, IfSome};
ghost use Rattle.il_edge.specs.Faults.{Rose};
ghost use Rattle.il_edge.specs.Known.{SameTold, Took, Appends, AppendsPrefix, IsSettled};
ghost use Rattle.report_text.specs.Report.{head_text, parts_text, report_text};
ghost use Rattle.malpas.specs.Parts.{before_last, KeepsParts};
ghost use Rattle.malpas.specs.Top.{HasStatus, line_text, IsWritten, IsSilent, IsForWords, IsReported, IsRefused, BelongsTo};

use crate::answer::{Judged, judge, refuse, silent, too_long_refusal};
use crate::reporting::report_on;
use crate::top::Outcome;
use il_edge::{Sink, Source};
use request::Selection;
use std::alloc::Global;

/// Reads the input of a source, and writes its refusal, or the selected sections of its report. It reads certificates
/// behind the text where their section is selected.
pub(crate) fn answer_source<S: Source, K: Sink>(
    alloc: Global,
    selection: Selection,
    source: &mut S,
    sink: &mut K,
) -> Outcome
    ensures understood { ¬ (IsForWords result) }
    ensures taken { Took (S.left source.old) (S.left source.new) }
    ensures refusal { IfSome result.refusal (IsRefused None selection (S.left source.old) (S.left source.new)) }
    ensures headline { IfSome result.report (IsReported None selection (S.left source.old) (S.left source.new) (K.held sink.old) (K.held sink.new) result.status) }
    ensures status { HasStatus result.refusal result.report result.status }
    ensures line { IsWritten result.status → result.report ≡ None → Appends (K.held sink.old) (K.held sink.new) (line_text result.refusal) }
    ensures written { IsWritten result.status → IfSome result.report (λ report. Appends (K.held sink.old) (K.held sink.new) (report_text selection report)) }
    ensures settled { IsWritten result.status → IsSettled (K.held sink.new) (K.settled sink.new) }
    ensures silent { IsSilent result.report result.status → sink.new ≡ sink.old }
    ensures short { result.status ≡ 5 → IfSome result.report (λ report.
        Appends (K.held sink.old) (K.held sink.new) (head_text report ++ parts_text selection report.procs) × IsSettled (K.held sink.new) (K.settled sink.new)) }
    ensures part { result.status ≡ 4 → result.report ≡ None → AppendsPrefix (K.held sink.old) (K.held sink.new) (line_text result.refusal) }
    ensures kept { result.status ≡ 4 → IfSome result.report (λ report.
        KeepsParts selection (K.held sink.old) (K.held sink.new) (K.settled sink.new) report (before_last report.procs)) }
    ensures unsettled { result.status ≡ 4 → result.report ≡ None → K.settled sink.new ≡ K.settled sink.old }
    ensures read_fault { result.status ≡ 3 → Rose (S.faults source.old) (S.faults source.new) }
    ensures write_fault { result.status ≡ 4 → Rose (K.faults sink.old) (K.faults sink.new) }
    ensures complete { ¬ (Rose (S.faults source.old) (S.faults source.new)) → ¬ (Rose (K.faults sink.old) (K.faults sink.new))
        → (result.status ≡ 5) ⊎ IfSome (S.left source.old) (λ input. BelongsTo selection.certificates input result.refusal result.report result.status) }
    ensures source { SameTold (S.left source.old) (S.left source.new) × (S.faults source.old ≤ S.faults source.new) }
    ensures sink { SameTold (K.held sink.old) (K.held sink.new) × (K.faults sink.old ≤ K.faults sink.new) }
{
    match judge(alloc, source, selection.certificates) {
        Judged::Accepted(input) => report_on(alloc, &input, selection, sink),
        Judged::Refused(refusal) => refuse(refusal, sink),
        Judged::TooLong => refuse(too_long_refusal(), sink),
        Judged::ReadFault => silent(3),
        Judged::NoMemory => silent(5),
    }
}
