//! The calls of a procedure, each with the lines that stand for it.
ghost use Rattle.std.specs.Prelude.{◌≡◌, ◌<◌, ℕ, IfOk, Some, length, map, slice_get};
ghost use Rattle.il_called.specs.declared.called.CallSpan.{CallSpan};
ghost use Rattle.il_core.specs.Text.{text_procedure};
ghost use Rattle.il_inline.specs.Expanded.{IsExpandedText, whole_of};
ghost use Rattle.report.specs.Reported.{call_line, call_lines};

use il_called::CallSpan;
use il_core::{CheckedProc, List, NoMemory};
use il_inline::Expanded;
use report::CallLine;
use std::alloc::Global;

/// The lines of a call, with the name of the procedure called.
fn call_line(procs: &[CheckedProc], span: &CallSpan) -> CallLine
    requires { span.now.callee < length procs.now }
    ensures { result ≡ call_line (map text_procedure procs.now) span.now }
{
    CallLine {
        first: span.first,
        last: span.last,
        callee: procs[span.callee].name(),
    }
}

/// The lines of each of these calls.
fn lines_of(
    alloc: Global,
    procs: &[CheckedProc],
    spans: &[CallSpan],
) -> Result<List<CallLine>, NoMemory>
    requires { (k : ℕ) (span : CallSpan) → slice_get spans.now k ≡ Some span → span.callee < length procs.now }
    ensures { IfOk result (λ lines. lines ≡ map (call_line (map text_procedure procs.now)) spans.now) }
{
    let mut lines = List::new(alloc);
    for span in spans {
        lines.push(call_line(procs, span))?;
    }
    Ok(lines)
}

/// The lines of each call of the procedure of this number, in order. The cost is linear in the calls. The only error is
/// `NoMemory`.
pub(crate) fn calls_of(
    alloc: Global,
    text: &Expanded,
    number: usize,
) -> Result<List<CallLine>, NoMemory>
    requires fits { IsExpandedText text.now }
    requires number { number < length text.now.text.procs }
    ensures { IfOk result (λ calls. slice_get (call_lines (whole_of text.now)) number ≡ Some calls) }
{
    let procs = text.text.procs().as_slice();
    let spans = &text.spans.as_slice()[number];
    lines_of(alloc, procs, spans.as_slice())
}
