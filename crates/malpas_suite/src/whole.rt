//! The report of a whole text.
ghost use Rattle.std.specs.Prelude.{◌≡◌, IfOk};
ghost use Rattle.il_core.specs.Text.{text_of};
ghost use Rattle.il_inline.specs.Expanded.{IsExpandedText, whole_of};
ghost use Rattle.report.specs.Reported.{IsReportOf};
ghost use Rattle.report.specs.Headline.{Headline, NoProcedureHasABadRun};
ghost use Rattle.report.specs.Status.{status_of};

use crate::analysis::analyse_proc;
use il_core::{List, NamedCert, NoMemory};
use il_inline::Expanded;
use report::Report;
use std::alloc::Global;

/// The report of an expanded text: its title and profile, and the report of each of its procedures in order, with the
/// lines of each of its calls, and with rows for those of the given certificates that name it; a certificate that names
/// no procedure of the text has no row. The procedures, their lines and their runs are those of the expanded text. All
/// that is said of the runs at [`analyse_proc`] holds of each of them, and where its status is 0, no procedure has a bad
/// run. The cost is that of analysing them one after the other, and the reports of all are held. The only error is
/// `NoMemory`.
pub fn analyse(alloc: Global, text: &Expanded, certs: &[NamedCert]) -> Result<Report, NoMemory>
    requires fits { IsExpandedText text.now }
    ensures report { IfOk result (IsReportOf certs.now (whole_of text.now)) }
    ensures headline { IfOk result (Headline (text_of text.now.text)) }
    ensures clean { IfOk result (λ report. status_of report ≡ 0 → NoProcedureHasABadRun (text_of text.now.text)) }
{
    let mut report = Report {
        profile: text.text.profile(),
        title: text.text.title(),
        procs: List::new(alloc),
    };
    for number in 0..text.text.procs().len() {
        let part = analyse_proc(alloc, text, number, certs)?;
        report.procs.push(part)?;
    }
    Ok(report)
}
