ghost use Rattle.std.specs.Prelude.{◌≡◌, ◌≢◌, ◌<◌, ◌≤◌, ◌⊎◌, ◌↔◌, None, IfSome, IsSome, map, string_bytes};
ghost use Rattle.il_edge.specs.Faults.{Rose};
ghost use Rattle.il_edge.specs.Known.{SameTold, Took, Appends, AppendsPrefix, IsSettled};
ghost use Rattle.request.specs.Words.{Understands};
ghost use Rattle.malpas.specs.Top.{HasStatus, line_text, input_asked, whole_text, reads_certificates, IfAsked, IsWritten, IsSilent, IsForWords, IsReported, IsRefused, IsCutShort, KeepsOthers, BelongsTo};

use crate::answer::answer_words;
use crate::made::answer_made;
use crate::source_text::answer_source;
use il_core::Refusal;
use il_edge::{Sink, Source};
use report::Report;
use request::read_words;
use std::alloc::Global;

/// What the program did.
#[derive(Drop)]
pub struct Outcome {
    /// 0 where the report was written and is clean: every procedure, with its calls expanded, is reducible, no table is
    /// past its size, every threat is refuted or a certificate that was read holds for it, and every certificate that was
    /// read holds. 1 where it was written and is not clean, 2 where the input was refused, 3 where the source failed, 4
    /// where the sink failed, 5 where memory ran out, 6 where the words are not understood.
    pub status: u8,
    /// The refusal, with status 2, and with 4 where the input was refused.
    pub refusal: Option<Refusal>,
    /// The report, with status 0 and 1; with 4 and 5 that of the first procedures, as many as were made.
    pub report: Option<Report>,
}

/// All that the program does, as its words ask, which `read_words` tells; refused words read nothing and are answered by one
/// line. Without a number it reads the input of `source` to its end. Where the section of certificates is selected, the
/// input is cut at its first line that is exactly `%%`: what stands before that line is the text, what stands behind it
/// are certificates for threats of its procedures. Otherwise, and where there is no such line, all of it is the text. It
/// accepts the input, or finds the first refusal of the text or else of the certificates, which it writes to `sink`. The
/// calls of an accepted text are expanded in place. It makes the report of each procedure, so expanded, in order, and writes
/// the selected sections of its part before it makes the next; the line with the status comes last. What is said of lines
/// and runs is said of the expanded procedures; `il_runs::expanded_runs_alike` carries it to the procedures as they are
/// written. It flushes behind each part and behind each line that stands alone. With a number it reads nothing, makes the
/// text of the number and its whole report, and then writes the summary and flushes. The status is that of the whole
/// report, whatever is selected. The first step that does not succeed decides the answer, and a report keeps the
/// procedures that were made before. The cost is that of accepting the text, of analysing its expanded procedures and of
/// checking the certificates, besides reading and writing, which are linear in their bytes.
pub fn malpas<S: Source, K: Sink>(
    alloc: Global,
    words: &[String],
    source: &mut S,
    sink: &mut K,
) -> Outcome
    ensures words { Understands (map string_bytes words.now) None ↔ IsForWords result }
    ensures unread { Understands (map string_bytes words.now) None → source.new ≡ source.old }
    ensures made { IfAsked (map string_bytes words.now) (λ request. IsSome request.generate → (source.new ≡ source.old) × (result.status ≢ 3)) }
    ensures taken { Took (S.left source.old) (S.left source.new) }
    ensures refusal { IfAsked (map string_bytes words.now) (λ request. IfSome result.refusal (IsRefused request.generate request.selection (S.left source.old) (S.left source.new))) }
    ensures headline { IfAsked (map string_bytes words.now) (λ request. IfSome result.report
        (IsReported request.generate request.selection (S.left source.old) (S.left source.new) (K.held sink.old) (K.held sink.new) result.status)) }
    ensures status { HasStatus result.refusal result.report result.status }
    ensures line { IsWritten result.status → result.report ≡ None → Appends (K.held sink.old) (K.held sink.new) (line_text result.refusal) }
    ensures written { IfAsked (map string_bytes words.now) (λ request. IsWritten result.status → IfSome result.report (λ report.
        Appends (K.held sink.old) (K.held sink.new) (whole_text request.generate request.selection report))) }
    ensures settled { IsWritten result.status → IsSettled (K.held sink.new) (K.settled sink.new) }
    ensures silent { IsSilent result.report result.status → sink.new ≡ sink.old }
    ensures short { IfAsked (map string_bytes words.now) (λ request. result.status ≡ 5 → IfSome result.report
        (IsCutShort request.generate request.selection (K.held sink.old) (K.held sink.new) (K.settled sink.old) (K.settled sink.new))) }
    ensures part { result.status ≡ 4 → result.report ≡ None → AppendsPrefix (K.held sink.old) (K.held sink.new) (line_text result.refusal) }
    ensures kept { IfAsked (map string_bytes words.now) (λ request. result.status ≡ 4 → IfSome result.report
        (KeepsOthers request.generate request.selection (K.held sink.old) (K.held sink.new) (K.settled sink.new))) }
    ensures unsettled { result.status ≡ 4 → result.report ≡ None → K.settled sink.new ≡ K.settled sink.old }
    ensures read_fault { result.status ≡ 3 → Rose (S.faults source.old) (S.faults source.new) }
    ensures write_fault { result.status ≡ 4 → Rose (K.faults sink.old) (K.faults sink.new) }
    ensures complete { IfAsked (map string_bytes words.now) (λ request.
        ¬ (Rose (S.faults source.old) (S.faults source.new)) → ¬ (Rose (K.faults sink.old) (K.faults sink.new))
        → (result.status ≡ 5) ⊎ IfSome (input_asked request.generate (S.left source.old)) (λ input. BelongsTo (reads_certificates request.generate request.selection) input result.refusal result.report result.status)) }
    ensures source { SameTold (S.left source.old) (S.left source.new) × (S.faults source.old ≤ S.faults source.new) }
    ensures sink { SameTold (K.held sink.old) (K.held sink.new) × (K.faults sink.old ≤ K.faults sink.new) }
{
    match read_words(words) {
        None => answer_words(sink),
        Some(request) => match request.generate {
            None => answer_source(alloc, request.selection, source, sink),
            Some(number) => answer_made(alloc, number, sink),
        },
    }
}
