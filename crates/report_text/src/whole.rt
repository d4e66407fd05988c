//! The text of a whole report.
ghost use Rattle.form_text.specs.Pieces.{Puts};
ghost use Rattle.report_text.specs.Report.{parts_text, report_text};

use crate::head::{put_end, put_head};
use crate::part::put_part;
use il_edge::{Failed, Sink};
use report::{ProcReport, Report, status_of};
use request::Selection;

fn put_parts<K: Sink>(
    procs: &[ProcReport],
    selection: Selection,
    sink: &mut K,
) -> Result<(), Failed>
    ensures { Puts K.held K.settled K.faults sink.old sink.new result (parts_text selection procs.now) }
{
    for part in procs {
        match put_part(part, selection, sink) {
            Ok(()) => {}
            Err(failed) => return Err(failed),
        }
    }
    Ok(())
}

/// Writes a whole report: its head, a part for each procedure with the sections that are selected, and its status.
/// `Failed` comes only where the sink's count of faults rose in this call, and then a prefix of the text was written. It
/// takes no memory, leaves what is settled as it was, and costs time linear in the report and the text.
pub fn put<K: Sink>(report: &Report, selection: Selection, sink: &mut K) -> Result<(), Failed>
    ensures { Puts K.held K.settled K.faults sink.old sink.new result (report_text selection report.now) }
{
    put_head(report, sink)?;
    put_parts(report.procs.as_slice(), selection, sink)?;
    put_end(status_of(report), sink)
}
