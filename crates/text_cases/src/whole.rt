//! The reports of whole texts, from their bytes to those of their reports.
ghost use Rattle.std.specs.Prelude.{◌≤◌, length, IfOk};
ghost use Rattle.il_inline.specs.Expanded.{IsExpandedText};

use crate::reported::{BUT_FLOW, CONTROL, PATHS, TABLES, VARIABLES};
use acceptance::accept;
use il_edge::SureSink;
use il_inline::Expanded;
use malpas_suite::analyse;
use report::status_of;
use report_text::{Selection, put};
use std::alloc::Global;
use std::test::Fail;

/// The sections that are asked for, what stands between PROC and ENDPROC, the status of the report, and the report.
type Case<'a> = (Selection, &'a str, u8, &'a str);

/// The expansion of a text that is accepted.
fn accepted(alloc: Global, text: &[u8]) -> Result<Expanded, Fail>
    requires { length text.now ≤ 1048576 }
    ensures { IfOk result IsExpandedText }
{
    match accept(alloc, text) {
        Ok(expanded) => Ok(expanded),
        Err(_) => Err(Fail::from("not accepted")),
    }
}

/// Whether the text of a procedure p has this report.
fn is_reported(alloc: Global, case: &Case) -> Result<bool, Fail> {
    let (asked, body, status, written) = case;
    let text = format!(in alloc; "TITLE t;PROC p;{body}ENDPROC;FINISH;")?;
    let bytes = text.as_bytes();
    if bytes.len() > 1_048_576 {
        return Err(Fail::from("too long"));
    }
    let expanded = accepted(alloc, bytes)?;
    let report = analyse(alloc, &expanded, &[])?;
    let mut sink = SureSink::new(alloc, 5_000)?;
    put(&report, *asked, &mut sink)?;
    Ok(sink.held() == written.as_bytes() && status_of(&report) == *status)
}

#[test]
fn texts_have_their_reports(rt: HostRuntime) -> Result<(), Fail> {
    let cases: [Case; 19] = [
        // a loop with a leading assertion, and a line that no path reaches
        (
            CONTROL,
            "INOUT x : 0 .. 9;PRE TRUE;POST TRUE;x := 0;LOOP;ASSERT x < 9;EXIT WHEN x >= 5;x := x + 1;ENDLOOP;RETURN;SKIP;",
            0,
            "MALPAS PROFILE 1\nTITLE t\nPROCEDURE p LINES 10\nCONTROL\nUNREACHABLE L8\nSTUCK -\nLOOP L2: L2 L3 L4 L5 L6 LEADING L3\nLEVEL 0\nINTERVAL L0: L0 L1\nINTERVAL L2: L2 L3 L4 L5 L6 L7 L9\nLEVEL 1\nINTERVAL L0: L0 L2\nSHAPE REDUCIBLE\nSTATUS 0\n",
        ),
        // a loop entered in its middle, and one that never ends
        (
            BUT_FLOW,
            "INOUT x : 0 .. 9;PRE TRUE;POST TRUE;IF x = 1;LOOP;ENDLOOP;ENDIF;IF x = 0;GOTO mid;ENDIF;LOOP;SKIP;LABEL mid;EXIT WHEN x = 9;ENDLOOP;",
            1,
            "MALPAS PROFILE 1\nTITLE t\nPROCEDURE p LINES 14\nCONTROL\nUNREACHABLE -\nSTUCK L2 L3\nLOOP L2: L2 L3 LEADING -\nLEVEL 0\nINTERVAL L0: L0 L1 L4 L5 L6 L7\nINTERVAL L2: L2 L3\nINTERVAL L8: L8 L9\nINTERVAL L10: L10 L11 L12 L13\nLEVEL 1\nINTERVAL L0: L0 L2\nINTERVAL L8: L8\nINTERVAL L10: L10\nLEVEL 2\nINTERVAL L0: L0\nINTERVAL L8: L8\nINTERVAL L10: L10\nSHAPE TWO ENTRIES\nCYCLE L8 L9 L10 L11 L12\nFIRST L0 L1 L4 L5 L7 L8\nSECOND L0 L1 L4 L5 L6 L10\nUSE\nNOT REPORTED IRREDUCIBLE\nSLICE\nNOT REPORTED IRREDUCIBLE\nPATHS\nNOT REPORTED IRREDUCIBLE\nSEMANTIC\nNOT REPORTED IRREDUCIBLE\nINPUTS\nNOT REPORTED IRREDUCIBLE\nCOMPLIANCE\nNOT REPORTED IRREDUCIBLE\nCERTIFICATES\nNOT REPORTED IRREDUCIBLE\nSTATUS 1\n",
        ),
        // variables that are read alone, written twice, and never read
        (
            VARIABLES,
            "IN c : 0 .. 1;INOUT a : 0 .. 9;OUT v : 0 .. 9;LOCAL d : 0 .. 9;PRE TRUE;POST TRUE;d := 0;v := 0;v := 1;IF c = 1;v := a;ENDIF;",
            0,
            "MALPAS PROFILE 1\nTITLE t\nPROCEDURE p LINES 8\nUSE\nVAR c RF=Y OW=N LW=N NR=N NW=Y EU=Y\nVAR a RF=Y OW=N LW=N NR=N NW=Y EU=Y\nVAR v RF=N OW=Y LW=N NR=N NW=N EU=N\nVAR d RF=N OW=N LW=Y NR=Y NW=N EU=N\nFLOW\nVAR c FROM c TESTS -\nVAR a FROM a TESTS -\nVAR v FROM c a TESTS L4\nVAR d FROM - TESTS -\nSLICE\nVAR c KEEP L7 FIXED L4=F\nVAR a KEEP L7 FIXED L4=F\nVAR v KEEP L3 L4 L5 L7 FIXED -\nVAR d KEEP L1 L7 FIXED L4=F\nSTATUS 0\n",
        ),
        // two ways that meet
        (
            PATHS,
            "IN x : 0 .. 9;PRE TRUE;POST TRUE;IF x = 0;SKIP;ENDIF;",
            0,
            "MALPAS PROFILE 1\nTITLE t\nPROCEDURE p LINES 5\nPATHS\nARC a1 L0 L1\nARC a2 L1 L2\nARC a3 L1 L3\nARC a4 L2 L3\nARC a5 L3 L4\nE1 = a1 . a2\nE2 = a1 . a3\nE3 = E1 . a4\nE4 = E2 + E3\nE5 = E4 . a5\nALL = E5\nSTATUS 0\n",
        ),
        // a loop
        (
            PATHS,
            "OUT x : 0 .. 9;PRE TRUE;POST TRUE;LOOP;EXIT WHEN x = 0;ENDLOOP;",
            0,
            "MALPAS PROFILE 1\nTITLE t\nPROCEDURE p LINES 5\nPATHS\nARC a1 L0 L1\nARC a2 L1 L2\nARC a3 L2 L4\nARC a4 L2 L3\nARC a5 L3 L1\nE1 = a2 . a4\nE2 = a2 . a3\nE3 = E1 . a5\nE4 = E3 *\nE5 = a1 . E4\nE6 = E5 . E2\nALL = E6\nSTATUS 0\n",
        ),
        // no way to the last line
        (
            PATHS,
            "OUT x : 0 .. 9;PRE TRUE;POST TRUE;LOOP;ENDLOOP;",
            0,
            "MALPAS PROFILE 1\nTITLE t\nPROCEDURE p LINES 4\nPATHS\nARC a1 L0 L1\nARC a2 L1 L2\nARC a3 L2 L1\nALL = 0\nSTATUS 0\n",
        ),
        // a value that may pass its range
        (
            TABLES,
            "INOUT x : 0 .. 9;PRE TRUE;POST TRUE;x := x + 1;",
            1,
            "MALPAS PROFILE 1\nTITLE t\nPROCEDURE p LINES 3\nSEMANTIC\nREGION L0\nROW 1 PATH T\nIF x <= 8\nSTOP END\nx := x + 1\nROW 2 PATH F\nIF x > 8\nSTOP RANGE L1\nINPUTS\nREGION L0\nROW 1 INPUT x = 0, OLD x = 0\nROW 2 INPUT x = 9, OLD x = 9\nCOMPLIANCE\nREGION L0\nTHREAT 1 PATH F STOP RANGE L1 SHOWN x = 9, OLD x = 9\nTHREATS 1 FALSE 0 SHOWN 1 OPEN 0 PAST 0\nSTATUS 1\n",
        ),
        // a value that wraps
        (
            TABLES,
            "INOUT x : WRAP 0 .. 9;PRE TRUE;POST OLD x < x;x := x + 9;",
            1,
            "MALPAS PROFILE 2\nTITLE t\nPROCEDURE p LINES 3\nSEMANTIC\nREGION L0\nROW 1 PATH T\nIF OLD x - ((x + 9) MOD 10) < 0\nSTOP END\nx := ((x + 9) MOD 10)\nROW 2 PATH F\nIF OLD x - ((x + 9) MOD 10) >= 0\nSTOP POST\nx := ((x + 9) MOD 10)\nINPUTS\nREGION L0\nROW 1 INPUT x = 0, OLD x = 0\nROW 2 INPUT -\nCOMPLIANCE\nREGION L0\nTHREAT 1 PATH F STOP POST OPEN OLD x - ((x + 9) MOD 10) >= 0\nTHREATS 1 FALSE 0 SHOWN 0 OPEN 1 PAST 0\nSTATUS 1\n",
        ),
        // a quotient, whose divisor may be 0
        (
            TABLES,
            "IN a : 0 .. 9;IN b : -2 .. 2;OUT q : -3 .. 3;PRE TRUE;POST TRUE;q := a DIV b;",
            1,
            "MALPAS PROFILE 1\nTITLE t\nPROCEDURE p LINES 3\nSEMANTIC\nREGION L0\nROW 1 PATH TTT\nIF b /= 0\nIF (a DIV b) >= -3\nIF (a DIV b) <= 3\nSTOP END\nq := (a DIV b)\nROW 2 PATH TTF\nIF b /= 0\nIF (a DIV b) >= -3\nIF (a DIV b) > 3\nSTOP RANGE L1\nROW 3 PATH TF\nIF b /= 0\nIF (a DIV b) < -3\nSTOP RANGE L1\nROW 4 PATH F\nIF b = 0\nSTOP DIVZERO L1\nINPUTS\nREGION L0\nROW 1 INPUT a = 0, b = -2, q = -3\nROW 2 INPUT -\nROW 3 INPUT -\nROW 4 INPUT a = 0, b = 0, q = -3\nCOMPLIANCE\nREGION L0\nTHREAT 1 PATH TTF STOP RANGE L1 OPEN (a DIV b) >= -3\nTHREAT 2 PATH TF STOP RANGE L1 OPEN (a DIV b) < -3\nTHREAT 3 PATH F STOP DIVZERO L1 SHOWN a = 0, b = 0, q = -3\nTHREATS 3 FALSE 0 SHOWN 1 OPEN 2 PAST 0\nSTATUS 1\n",
        ),
        // a division within a condition
        (
            TABLES,
            "IN a : 0 .. 1;IN b : 0 .. 5;OUT r : 0 .. 1;PRE TRUE;POST TRUE;r := 0;IF a = 1 AND 10 DIV b > 2;r := 1;ENDIF;",
            1,
            "MALPAS PROFILE 1\nTITLE t\nPROCEDURE p LINES 6\nSEMANTIC\nREGION L0\nROW 1 PATH TTT\nIF a = 1\nIF b /= 0\nIF (10 DIV b) > 2\nSTOP END\nr := 1\nROW 2 PATH TTF\nIF a = 1\nIF b /= 0\nIF (10 DIV b) <= 2\nSTOP END\nr := 0\nROW 3 PATH TF\nIF a = 1\nIF b = 0\nSTOP DIVZERO L2\nr := 0\nROW 4 PATH F\nIF a /= 1\nSTOP END\nr := 0\nINPUTS\nREGION L0\nROW 1 INPUT a = 1, b = 1, r = 0\nROW 2 INPUT -\nROW 3 INPUT a = 1, b = 0, r = 0\nROW 4 INPUT a = 0, b = 0, r = 0\nCOMPLIANCE\nREGION L0\nTHREAT 1 PATH TF STOP DIVZERO L2 SHOWN a = 1, b = 0, r = 0\nTHREATS 1 FALSE 0 SHOWN 1 OPEN 0 PAST 0\nSTATUS 1\n",
        ),
        // a path that is plainly refuted
        (
            TABLES,
            "IN x : 0 .. 9;LOCAL y : 0 .. 1;PRE TRUE;POST TRUE;IF x > 5;IF x < 3;y := 1;ENDIF;ENDIF;",
            0,
            "MALPAS PROFILE 1\nTITLE t\nPROCEDURE p LINES 7\nSEMANTIC\nREGION L0\nROW 1 PATH TF\nIF x > 5\nIF x >= 3\nSTOP END\nROW 2 PATH F\nIF x <= 5\nSTOP END\nINPUTS\nREGION L0\nROW 1 INPUT x = 6, y = 0\nROW 2 INPUT x = 0, y = 0\nCOMPLIANCE\nREGION L0\nTHREATS 0 FALSE 0 SHOWN 0 OPEN 0 PAST 0\nSTATUS 0\n",
        ),
        // a product, whose rows no least input tells apart
        (
            TABLES,
            "IN x : 0 .. 9;IN y : 0 .. 9;PRE TRUE;POST TRUE;IF x * y < 3;ASSERT x * y < 3;ENDIF;",
            1,
            "MALPAS PROFILE 1\nTITLE t\nPROCEDURE p LINES 5\nSEMANTIC\nREGION L0\nROW 1 PATH TT\nIF x*y < 3\nIF x*y < 3\nSTOP END\nROW 2 PATH TF\nIF x*y < 3\nIF x*y >= 3\nSTOP ASSERT L2\nROW 3 PATH F\nIF x*y >= 3\nSTOP END\nINPUTS\nREGION L0\nROW 1 INPUT x = 0, y = 0\nROW 2 INPUT -\nROW 3 INPUT -\nCOMPLIANCE\nREGION L0\nTHREAT 1 PATH TF STOP ASSERT L2 OPEN x*y < 3\nTHREATS 1 FALSE 0 SHOWN 0 OPEN 1 PAST 0\nSTATUS 1\n",
        ),
        // no place
        (
            TABLES,
            "PRE TRUE;POST TRUE;SKIP;",
            0,
            "MALPAS PROFILE 1\nTITLE t\nPROCEDURE p LINES 3\nSEMANTIC\nREGION L0\nROW 1 PATH -\nSTOP END\nINPUTS\nREGION L0\nROW 1 INPUT EMPTY\nCOMPLIANCE\nREGION L0\nTHREATS 0 FALSE 0 SHOWN 0 OPEN 0 PAST 0\nSTATUS 0\n",
        ),
        // a comparison that always holds on one path
        (
            TABLES,
            "IN c : 0 .. 9;INOUT x : 0 .. 9;OUT y : 0 .. 9;PRE TRUE;POST TRUE;IF c = 1;x := 3;ELSE;y := x;ENDIF;IF x <= y;SKIP;ENDIF;",
            0,
            "MALPAS PROFILE 1\nTITLE t\nPROCEDURE p LINES 10\nSEMANTIC\nREGION L0\nROW 1 PATH TT\nIF c = 1\nIF y >= 3\nSTOP END\nx := 3\nROW 2 PATH TF\nIF c = 1\nIF y < 3\nSTOP END\nx := 3\nROW 3 PATH FT\nIF c /= 1\nSTOP END\ny := x\nINPUTS\nREGION L0\nROW 1 INPUT c = 1, x = 0, y = 3, OLD x = 0\nROW 2 INPUT c = 1, x = 0, y = 0, OLD x = 0\nROW 3 INPUT c = 0, x = 0, y = 0, OLD x = 0\nCOMPLIANCE\nREGION L0\nTHREATS 0 FALSE 0 SHOWN 0 OPEN 0 PAST 0\nSTATUS 0\n",
        ),
        // a sum of three places, which no least input settles
        (
            TABLES,
            "IN n : 0 .. 9;IN k : 0 .. 9;OUT s : 0 .. 18;LOCAL i : 0 .. 9;PRE TRUE;POST s = k + n;s := k;i := 0;LOOP;ASSERT i <= n;ASSERT s = k + i;EXIT WHEN i = n;i := i + 1;s := s + 1;ENDLOOP;",
            1,
            "MALPAS PROFILE 1\nTITLE t\nPROCEDURE p LINES 11\nSEMANTIC\nREGION L0\nROW 1 PATH -\nSTOP HEAD L3\ns := k\ni := 0\nREGION L3\nROW 1 PATH TTTT\nIF n - i >= 0\nIF k - s + i = 0\nIF n - i = 0\nIF n + k - s = 0\nSTOP END\nROW 2 PATH TTTF\nIF n - i >= 0\nIF k - s + i = 0\nIF n - i = 0\nIF n + k - s /= 0\nSTOP POST\nROW 3 PATH TTFTT\nIF n - i >= 0\nIF k - s + i = 0\nIF n - i /= 0\nIF i <= 8\nIF s <= 17\nSTOP HEAD L3\ns := s + 1\ni := i + 1\nROW 4 PATH TTFTF\nIF n - i >= 0\nIF k - s + i = 0\nIF n - i /= 0\nIF i <= 8\nIF s > 17\nSTOP RANGE L8\ni := i + 1\nROW 5 PATH TF\nIF n - i >= 0\nIF k - s + i /= 0\nSTOP ASSERT L5\nROW 6 PATH F\nIF n - i < 0\nSTOP ASSERT L4\nINPUTS\nREGION L0\nROW 1 INPUT n = 0, k = 0, s = 0, i = 0\nREGION L3\nROW 1 INPUT n = 0, k = 0, s = 0, i = 0\nROW 2 INPUT -\nROW 3 INPUT n = 1, k = 0, s = 0, i = 0\nROW 4 INPUT -\nROW 5 INPUT -\nROW 6 INPUT n = 0, k = 0, s = 0, i = 1\nCOMPLIANCE\nREGION L0\nTHREAT 1 PATH TF STOP ASSERT L5 FALSE\nTHREAT 2 PATH F STOP ASSERT L4 FALSE\nREGION L3\nTHREAT 3 PATH TTTF STOP POST OPEN k - s + i = 0\nTHREAT 4 PATH TTFTTTF STOP ASSERT L5 OPEN k - s + i = 0\nTHREAT 5 PATH TTFTTF STOP ASSERT L4 FALSE\nTHREAT 6 PATH TTFTF STOP RANGE L8 OPEN k - s + i = 0\nTHREAT 7 PATH TTFF STOP RANGE L7 FALSE\nTHREATS 7 FALSE 4 SHOWN 0 OPEN 3 PAST 0\nSTATUS 1\n",
        ),
        // an invariant that holds
        (
            TABLES,
            "IN n : 0 .. 9;OUT i : 0 .. 9;PRE TRUE;POST i = n;i := 0;LOOP;ASSERT 0 <= i;ASSERT i <= n;EXIT WHEN i >= n;i := i + 1;ENDLOOP;",
            0,
            "MALPAS PROFILE 1\nTITLE t\nPROCEDURE p LINES 9\nSEMANTIC\nREGION L0\nROW 1 PATH -\nSTOP HEAD L2\ni := 0\nREGION L2\nROW 1 PATH TTTT\nIF i >= 0\nIF n - i >= 0\nIF n - i <= 0\nIF n - i = 0\nSTOP END\nROW 2 PATH TTFT\nIF i >= 0\nIF n - i >= 0\nIF n - i > 0\nIF i <= 8\nSTOP HEAD L2\ni := i + 1\nROW 3 PATH TF\nIF i >= 0\nIF n - i < 0\nSTOP ASSERT L4\nINPUTS\nREGION L0\nROW 1 INPUT n = 0, i = 0\nREGION L2\nROW 1 INPUT n = 0, i = 0\nROW 2 INPUT n = 1, i = 0\nROW 3 INPUT n = 0, i = 1\nCOMPLIANCE\nREGION L0\nTHREAT 1 PATH TF STOP ASSERT L4 FALSE\nTHREAT 2 PATH F STOP ASSERT L3 FALSE\nREGION L2\nTHREAT 3 PATH TTTF STOP POST FALSE\nTHREAT 4 PATH TTFTTF STOP ASSERT L4 FALSE\nTHREAT 5 PATH TTFTF STOP ASSERT L3 FALSE\nTHREAT 6 PATH TTFF STOP RANGE L6 FALSE\nTHREATS 6 FALSE 6 SHOWN 0 OPEN 0 PAST 0\nSTATUS 0\n",
        ),
        // an invariant that the body loses
        (
            TABLES,
            "IN n : 0 .. 9;LOCAL i : 0 .. 9;PRE TRUE;POST TRUE;i := 3;LOOP;ASSERT i <= n;EXIT WHEN i >= n;i := i + 2;ENDLOOP;",
            1,
            "MALPAS PROFILE 1\nTITLE t\nPROCEDURE p LINES 8\nSEMANTIC\nREGION L0\nROW 1 PATH -\nSTOP HEAD L2\ni := 3\nREGION L2\nROW 1 PATH TT\nIF n - i >= 0\nIF n - i <= 0\nSTOP END\nROW 2 PATH TFT\nIF n - i >= 0\nIF n - i > 0\nIF i <= 7\nSTOP HEAD L2\ni := i + 2\nROW 3 PATH TFF\nIF n - i >= 0\nIF n - i > 0\nIF i > 7\nSTOP RANGE L5\nROW 4 PATH F\nIF n - i < 0\nSTOP ASSERT L3\nINPUTS\nREGION L0\nROW 1 INPUT n = 0, i = 0\nREGION L2\nROW 1 INPUT n = 0, i = 0\nROW 2 INPUT n = 1, i = 0\nROW 3 INPUT n = 9, i = 8\nROW 4 INPUT n = 0, i = 1\nCOMPLIANCE\nREGION L0\nTHREAT 1 PATH F STOP ASSERT L3 SHOWN n = 0, i = 0\nREGION L2\nTHREAT 2 PATH TFTF STOP ASSERT L3 SHOWN n = 1, i = 0\nTHREAT 3 PATH TFF STOP RANGE L5 SHOWN n = 9, i = 8\nTHREATS 3 FALSE 0 SHOWN 3 OPEN 0 PAST 0\nSTATUS 1\n",
        ),
        // too many rows
        (
            TABLES,
            "IN a : 0 .. 99;PRE TRUE;POST TRUE;IF a >= 1;SKIP;ENDIF;IF a >= 2;SKIP;ENDIF;IF a >= 3;SKIP;ENDIF;IF a >= 4;SKIP;ENDIF;IF a >= 5;SKIP;ENDIF;IF a >= 6;SKIP;ENDIF;IF a >= 7;SKIP;ENDIF;IF a >= 8;SKIP;ENDIF;IF a >= 9;SKIP;ENDIF;IF a >= 10;SKIP;ENDIF;IF a >= 11;SKIP;ENDIF;IF a >= 12;SKIP;ENDIF;IF a >= 13;SKIP;ENDIF;IF a >= 14;SKIP;ENDIF;IF a >= 15;SKIP;ENDIF;",
            1,
            "MALPAS PROFILE 1\nTITLE t\nPROCEDURE p LINES 47\nSEMANTIC\nREGION L0 PAST ROWS\nINPUTS\nREGION L0 PAST ROWS\nCOMPLIANCE\nREGION L0 PAST ROWS\nTHREATS 0 FALSE 0 SHOWN 0 OPEN 0 PAST 1\nSTATUS 1\n",
        ),
        // too great a weight, and a region behind it
        (
            TABLES,
            "INOUT x : 0 .. 9;PRE TRUE;POST TRUE;x := x * 1048576 MOD 7;x := x * 1048576 MOD 7;x := x * 1048576 MOD 7;x := x * 1048576 MOD 7;x := x * 1048570 MOD 7;LOOP;EXIT WHEN x = 0;x := x - 1;ENDLOOP;",
            1,
            "MALPAS PROFILE 1\nTITLE t\nPROCEDURE p LINES 11\nSEMANTIC\nREGION L0 PAST WEIGHT\nREGION L6\nROW 1 PATH T\nIF x = 0\nSTOP END\nROW 2 PATH FT\nIF x /= 0\nIF x >= 1\nSTOP HEAD L6\nx := x - 1\nINPUTS\nREGION L0 PAST WEIGHT\nREGION L6\nROW 1 INPUT x = 0, OLD x = 0\nROW 2 INPUT x = 1, OLD x = 0\nCOMPLIANCE\nREGION L0 PAST WEIGHT\nREGION L6\nTHREAT 1 PATH FF STOP RANGE L8 FALSE\nTHREATS 1 FALSE 1 SHOWN 0 OPEN 0 PAST 1\nSTATUS 1\n",
        ),
    ];
    for case in cases.iter() {
        assert!(rt; is_reported(rt.alloc(), case)?, "{}", case.1);
    }
    Ok(())
}
