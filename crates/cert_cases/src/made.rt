//! The certificates that are made of refuted threats.
use crate::rows::accepted;
use malpas_suite::analyse;
use report::{Report, status_of};
use std::alloc::Global;
use std::test::Fail;

/// A counting loop, whose six threats are refuted, and a procedure whose one threat is refuted by a split of a `/=`.
const TEXT: &[u8] =
    b"TITLE t;PROC count;IN n : 0 .. 9;OUT i : 0 .. 9;PRE TRUE;POST i = n;i := 0;LOOP;ASSERT 0 <= i;ASSERT i <= n;EXIT WHEN i >= n;i := i + 1;ENDLOOP;ENDPROC;PROC other;IN x : 0 .. 9;PRE TRUE;POST TRUE;IF x /= 0;ASSERT x > 0;ENDIF;ENDPROC;FINISH;";

/// Whether the made certificates of a procedure are for the threats with the numbers 1 to a last one, and none else.
fn are_numbered(report: &Report, number: usize, last: usize) -> bool {
    let Some(part) = report.procs.get(number) else {
        return false;
    };
    let Some(analyses) = &part.analyses else {
        return false;
    };
    let made = analyses.made.as_slice();
    made.len() == last
        && made
            .iter()
            .zip(1..=last)
            .all(|(cert, at)| cert.threat == at)
}

#[test]
fn made_certificates_hold(rt: HostRuntime) -> Result<(), Fail> {
    let alloc = rt.alloc();
    let expanded = accepted(alloc, TEXT)?;
    let report = analyse(alloc, &expanded, &[])?;
    assert!(rt; are_numbered(&report, 0, 6) && are_numbered(&report, 1, 1));
    for part in report.procs.as_slice() {
        let analyses = part.analyses.as_ref().ok_or("not analysed")?;
        let again = analyse(alloc, &expanded, analyses.made.as_slice())?;
        let same = again
            .procs
            .as_slice()
            .iter()
            .find(|proc| proc.name == part.name);
        let rows = same.ok_or("no procedure")?.certs.as_slice();
        assert!(rt; rows.len() == analyses.made.len() && rows.iter().all(|row| row.holds));
        assert_eq!(rt; status_of(&again), 0);
    }
    Ok(())
}
