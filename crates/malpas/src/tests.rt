use crate::top::malpas;
use il_edge::{MemSink, MemSource, SureSink, SureSource};
use std::alloc::Global;
use std::process::Abort;
use std::test::Fail;

/// A straight procedure, 149 bytes.
pub(crate) const COPY: &str =
    "TITLE copy;\nPROC p;\nIN a : 0 .. 9;\nINOUT b : 0 .. 9;\nOUT c : 0 .. 9;\nLOCAL d : 0 .. 9;\nPRE TRUE;\nPOST TRUE;\nd := a;\nc := b;\nb := d;\nENDPROC;\nFINISH;\n";

/// Its report.
pub(crate) const COPY_REPORT: &str =
    "MALPAS PROFILE 1\nTITLE copy\nPROCEDURE p LINES 5\nCONTROL\nUNREACHABLE -\nSTUCK -\nLEVEL 0\nINTERVAL L0: L0 L1 L2 L3 L4\nSHAPE REDUCIBLE\nUSE\nVAR a RF=Y OW=N LW=N NR=N NW=Y EU=Y\nVAR b RF=Y OW=N LW=N NR=N NW=N EU=N\nVAR c RF=N OW=N LW=N NR=N NW=N EU=N\nVAR d RF=N OW=N LW=N NR=N NW=N EU=N\nFLOW\nVAR a FROM a TESTS -\nVAR b FROM a TESTS -\nVAR c FROM b TESTS -\nVAR d FROM a TESTS -\nPATHS\nARC a1 L0 L1\nARC a2 L1 L2\nARC a3 L2 L3\nARC a4 L3 L4\nE1 = a1 . a2\nE2 = E1 . a3\nE3 = E2 . a4\nALL = E3\nSEMANTIC\nREGION L0\nROW 1 PATH -\nSTOP END\nb := a\nc := b\nd := a\nCOMPLIANCE\nREGION L0\nTHREATS 0 FALSE 0 SHOWN 0 OPEN 0 PAST 0\nSTATUS 0\n";

/// A valve controller: constants, types, conditions, loops, assertions and two procedures.
pub(crate) const VALVE: &str =
    "TITLE valve;\nCONST full = 100;\nTYPE level = 0 .. full;\nTYPE state = ( shut, filling, draining );\nPROC fill;\nIN goal : level;\nINOUT height : level;\nOUT mode : state;\nPRE height <= goal;\nPOST height = goal AND OLD height <= height;\nmode := filling;\nLOOP;\nASSERT height <= goal;\nASSERT OLD height <= height;\nEXIT WHEN height = goal;\nIF height + 10 > goal;\nheight := goal;\nELSE;\nheight := height + 10;\nENDIF;\nENDLOOP;\nmode := shut;\nENDPROC;\nPROC drain;\nIN low : level;\nINOUT height : level;\nOUT mode : state;\nOUT alarm : BOOL;\nPRE low <= height;\nPOST height = low AND NOT alarm;\nmode := draining;\nalarm := FALSE;\nLOOP;\nASSERT low <= height;\nASSERT mode = draining;\nASSERT NOT alarm;\nEXIT WHEN height <= low;\nheight := height - 1;\nENDLOOP;\nIF mode = draining;\nmode := shut;\nELSE;\nalarm := TRUE;\nENDIF;\nENDPROC;\nFINISH;\n";

/// Its report.
pub(crate) const VALVE_REPORT: &str =
    "MALPAS PROFILE 1\nTITLE valve\nPROCEDURE fill LINES 14\nCONTROL\nUNREACHABLE -\nSTUCK -\nLOOP L2: L2 L3 L4 L5 L6 L7 L8 L9 L10 L11 LEADING L3 L4\nLEVEL 0\nINTERVAL L0: L0 L1\nINTERVAL L2: L2 L3 L4 L5 L6 L7 L8 L9 L10 L11 L12 L13\nLEVEL 1\nINTERVAL L0: L0 L2\nSHAPE REDUCIBLE\nUSE\nVAR goal RF=Y OW=N LW=N NR=N NW=Y EU=Y\nVAR height RF=Y OW=N LW=N NR=N NW=N EU=Y\nVAR mode RF=N OW=Y LW=N NR=N NW=N EU=N\nFLOW\nVAR goal FROM goal TESTS -\nVAR height FROM goal height TESTS L5 L6\nVAR mode FROM - TESTS -\nPATHS\nARC a1 L0 L1\nARC a2 L1 L2\nARC a3 L2 L3\nARC a4 L3 L4\nARC a5 L4 L5\nARC a6 L5 L12\nARC a7 L5 L6\nARC a8 L6 L7\nARC a9 L6 L9\nARC a10 L7 L8\nARC a11 L8 L10\nARC a12 L9 L10\nARC a13 L10 L11\nARC a14 L11 L2\nARC a15 L12 L13\nE1 = a1 . a2\nE2 = a3 . a4\nE3 = E2 . a5\nE4 = E3 . a7\nE5 = E3 . a6\nE6 = E4 . a8\nE7 = E4 . a9\nE8 = E6 . a10\nE9 = E8 . a11\nE10 = E7 . a12\nE11 = E9 + E10\nE12 = E11 . a13\nE13 = E12 . a14\nE14 = E5 . a15\nE15 = E13 *\nE16 = E1 . E15\nE17 = E16 . E14\nALL = E17\nSEMANTIC\nREGION L0\nROW 1 PATH T\nIF goal - height >= 0\nSTOP HEAD L2\nmode := 1\nROW 2 PATH F\nIF goal - height < 0\nSTOP OUTSIDE\nREGION L2\nROW 1 PATH TTTTT\nIF goal - height >= 0\nIF height - OLD height >= 0\nIF goal - height = 0\nIF goal - height = 0\nIF height - OLD height >= 0\nSTOP END\nmode := 0\nROW 2 PATH TTFT\nIF goal - height >= 0\nIF height - OLD height >= 0\nIF goal - height /= 0\nIF goal - height < 10\nSTOP HEAD L2\nheight := goal\nROW 3 PATH TTFFT\nIF goal - height >= 0\nIF height - OLD height >= 0\nIF goal - height /= 0\nIF goal - height >= 10\nIF height <= 90\nSTOP HEAD L2\nheight := height + 10\nROW 4 PATH TF\nIF goal - height >= 0\nIF height - OLD height < 0\nSTOP ASSERT L4\nROW 5 PATH F\nIF goal - height < 0\nSTOP ASSERT L3\nCOMPLIANCE\nREGION L0\nTHREAT 1 PATH TTF STOP ASSERT L4 FALSE\nTHREAT 2 PATH TF STOP ASSERT L3 FALSE\nREGION L2\nTHREAT 3 PATH TTTTF STOP POST FALSE\nTHREAT 4 PATH TTTF STOP POST FALSE\nTHREAT 5 PATH TTFTTF STOP ASSERT L4 FALSE\nTHREAT 6 PATH TTFTF STOP ASSERT L3 FALSE\nTHREAT 7 PATH TTFFTTF STOP ASSERT L4 FALSE\nTHREAT 8 PATH TTFFTF STOP ASSERT L3 FALSE\nTHREAT 9 PATH TTFFF STOP RANGE L9 FALSE\nTHREATS 9 FALSE 9 SHOWN 0 OPEN 0 PAST 0\nPROCEDURE drain LINES 16\nCONTROL\nUNREACHABLE -\nSTUCK -\nLOOP L3: L3 L4 L5 L6 L7 L8 L9 LEADING L4 L5 L6\nLEVEL 0\nINTERVAL L0: L0 L1 L2\nINTERVAL L3: L3 L4 L5 L6 L7 L8 L9 L10 L11 L12 L13 L14 L15\nLEVEL 1\nINTERVAL L0: L0 L3\nSHAPE REDUCIBLE\nUSE\nVAR low RF=Y OW=N LW=N NR=N NW=Y EU=Y\nVAR height RF=Y OW=N LW=N NR=N NW=N EU=Y\nVAR mode RF=N OW=N LW=N NR=N NW=N EU=N\nVAR alarm RF=N OW=Y LW=N NR=N NW=N EU=N\nFLOW\nVAR low FROM low TESTS -\nVAR height FROM low height TESTS L7\nVAR mode FROM - TESTS L10\nVAR alarm FROM - TESTS L10\nPATHS\nARC a1 L0 L1\nARC a2 L1 L2\nARC a3 L2 L3\nARC a4 L3 L4\nARC a5 L4 L5\nARC a6 L5 L6\nARC a7 L6 L7\nARC a8 L7 L10\nARC a9 L7 L8\nARC a10 L8 L9\nARC a11 L9 L3\nARC a12 L10 L11\nARC a13 L10 L13\nARC a14 L11 L12\nARC a15 L12 L14\nARC a16 L13 L14\nARC a17 L14 L15\nE1 = a1 . a2\nE2 = E1 . a3\nE3 = a4 . a5\nE4 = E3 . a6\nE5 = E4 . a7\nE6 = E5 . a9\nE7 = E5 . a8\nE8 = E6 . a10\nE9 = E8 . a11\nE10 = E7 . a12\nE11 = E7 . a13\nE12 = E10 . a14\nE13 = E12 . a15\nE14 = E11 . a16\nE15 = E13 + E14\nE16 = E15 . a17\nE17 = E9 *\nE18 = E2 . E17\nE19 = E18 . E16\nALL = E19\nSEMANTIC\nREGION L0\nROW 1 PATH T\nIF low - height <= 0\nSTOP HEAD L3\nmode := 2\nalarm := 0\nROW 2 PATH F\nIF low - height > 0\nSTOP OUTSIDE\nREGION L3\nROW 1 PATH TTT\nIF low - height <= 0\nIF mode = 2\nIF alarm >= 1\nSTOP ASSERT L6\nROW 2 PATH TTFTTTF\nIF low - height <= 0\nIF mode = 2\nIF alarm < 1\nIF low - height >= 0\nIF mode = 2\nIF low - height = 0\nIF alarm < 1\nSTOP END\nmode := 0\nROW 3 PATH TTFFT\nIF low - height <= 0\nIF mode = 2\nIF alarm < 1\nIF low - height < 0\nIF height >= 1\nSTOP HEAD L3\nheight := height - 1\nROW 4 PATH TF\nIF low - height <= 0\nIF mode /= 2\nSTOP ASSERT L5\nROW 5 PATH F\nIF low - height > 0\nSTOP ASSERT L4\nCOMPLIANCE\nREGION L0\nTHREAT 1 PATH TTTT STOP ASSERT L6 FALSE\nTHREAT 2 PATH TTF STOP ASSERT L5 FALSE\nTHREAT 3 PATH TF STOP ASSERT L4 FALSE\nREGION L3\nTHREAT 4 PATH TTFTTTT STOP POST FALSE\nTHREAT 5 PATH TTFTTF STOP POST FALSE\nTHREAT 6 PATH TTFTFTT STOP POST FALSE\nTHREAT 7 PATH TTFTFF STOP POST FALSE\nTHREAT 8 PATH TTFFTTTT STOP ASSERT L6 FALSE\nTHREAT 9 PATH TTFFTTF STOP ASSERT L5 FALSE\nTHREAT 10 PATH TTFFTF STOP ASSERT L4 FALSE\nTHREAT 11 PATH TTFFF STOP RANGE L8 FALSE\nTHREATS 11 FALSE 11 SHOWN 0 OPEN 0 PAST 0\nSTATUS 0\n";

/// A procedure without places, one whose loop is entered in its middle, and one that wraps.
const MIXED: &str =
    "TITLE mixed;\nPROC none;\nPRE TRUE;\nPOST TRUE;\nENDPROC;\nPROC ladder;\nINOUT x : 0 .. 9;\nPRE TRUE;\nPOST TRUE;\nIF x = 0;\nGOTO mid;\nENDIF;\nLOOP;\nSKIP;\nLABEL mid;\nEXIT WHEN x = 9;\nENDLOOP;\nENDPROC;\nPROC wraps;\nINOUT x : WRAP 0 .. 9;\nPRE TRUE;\nPOST TRUE;\nx := x + 1;\nENDPROC;\nFINISH;\n";

/// Its report.
const MIXED_REPORT: &str =
    "MALPAS PROFILE 2\nTITLE mixed\nPROCEDURE none LINES 2\nCONTROL\nUNREACHABLE -\nSTUCK -\nLEVEL 0\nINTERVAL L0: L0 L1\nSHAPE REDUCIBLE\nUSE\nFLOW\nPATHS\nARC a1 L0 L1\nALL = a1\nSEMANTIC\nREGION L0\nROW 1 PATH -\nSTOP END\nCOMPLIANCE\nREGION L0\nTHREATS 0 FALSE 0 SHOWN 0 OPEN 0 PAST 0\nPROCEDURE ladder LINES 10\nCONTROL\nUNREACHABLE -\nSTUCK -\nLEVEL 0\nINTERVAL L0: L0 L1 L2 L3\nINTERVAL L4: L4 L5\nINTERVAL L6: L6 L7 L8 L9\nLEVEL 1\nINTERVAL L0: L0\nINTERVAL L4: L4\nINTERVAL L6: L6\nSHAPE TWO ENTRIES\nCYCLE L4 L5 L6 L7 L8\nFIRST L0 L1 L3 L4\nSECOND L0 L1 L2 L6\nUSE\nNOT REPORTED IRREDUCIBLE\nFLOW\nNOT REPORTED IRREDUCIBLE\nPATHS\nNOT REPORTED IRREDUCIBLE\nSEMANTIC\nNOT REPORTED IRREDUCIBLE\nCOMPLIANCE\nNOT REPORTED IRREDUCIBLE\nPROCEDURE wraps LINES 3\nCONTROL\nUNREACHABLE -\nSTUCK -\nLEVEL 0\nINTERVAL L0: L0 L1 L2\nSHAPE REDUCIBLE\nUSE\nVAR x RF=Y OW=N LW=N NR=N NW=N EU=N\nFLOW\nVAR x FROM x TESTS -\nPATHS\nARC a1 L0 L1\nARC a2 L1 L2\nE1 = a1 . a2\nALL = E1\nSEMANTIC\nREGION L0\nROW 1 PATH -\nSTOP END\nx := ((x + 1) MOD 10)\nCOMPLIANCE\nREGION L0\nTHREATS 0 FALSE 0 SHOWN 0 OPEN 0 PAST 0\nSTATUS 1\n";

/// The final value of v hangs on b alone, that of t on c alone.
const BRANCH: &str =
    "TITLE t;\nPROC p;\nIN b : 0 .. 9;\nIN c : 0 .. 9;\nOUT v : 0 .. 9;\nLOCAL t : 0 .. 9;\nPRE TRUE;\nPOST TRUE;\nIF c = 1;\nt := 1;\nELSE;\nt := 2;\nENDIF;\nv := b;\nENDPROC;\nFINISH;\n";

/// Its report.
const BRANCH_REPORT: &str =
    "MALPAS PROFILE 1\nTITLE t\nPROCEDURE p LINES 8\nCONTROL\nUNREACHABLE -\nSTUCK -\nLEVEL 0\nINTERVAL L0: L0 L1 L2 L3 L4 L5 L6 L7\nSHAPE REDUCIBLE\nUSE\nVAR b RF=Y OW=N LW=N NR=N NW=Y EU=Y\nVAR c RF=Y OW=N LW=N NR=N NW=Y EU=Y\nVAR v RF=N OW=N LW=N NR=N NW=N EU=N\nVAR t RF=N OW=N LW=Y NR=Y NW=N EU=N\nFLOW\nVAR b FROM b TESTS -\nVAR c FROM c TESTS -\nVAR v FROM b TESTS -\nVAR t FROM c TESTS L1\nPATHS\nARC a1 L0 L1\nARC a2 L1 L2\nARC a3 L1 L4\nARC a4 L2 L3\nARC a5 L3 L5\nARC a6 L4 L5\nARC a7 L5 L6\nARC a8 L6 L7\nE1 = a1 . a2\nE2 = a1 . a3\nE3 = E1 . a4\nE4 = E3 . a5\nE5 = E2 . a6\nE6 = E4 + E5\nE7 = E6 . a7\nE8 = E7 . a8\nALL = E8\nSEMANTIC\nREGION L0\nROW 1 PATH T\nIF c = 1\nSTOP END\nv := b\nt := 1\nROW 2 PATH F\nIF c /= 1\nSTOP END\nv := b\nt := 2\nCOMPLIANCE\nREGION L0\nTHREATS 0 FALSE 0 SHOWN 0 OPEN 0 PAST 0\nSTATUS 0\n";

/// A loop whose number of turns decides the final value of v.
const COUNTING: &str =
    "TITLE t;\nPROC p;\nIN c : 0 .. 9;\nOUT v : 0 .. 99;\nLOCAL i : 0 .. 9;\nPRE TRUE;\nPOST TRUE;\nv := 0;\ni := 0;\nLOOP;\nEXIT WHEN i >= c;\nv := v + 2;\ni := i + 1;\nENDLOOP;\nENDPROC;\nFINISH;\n";

/// Its report.
const COUNTING_REPORT: &str =
    "MALPAS PROFILE 1\nTITLE t\nPROCEDURE p LINES 9\nCONTROL\nUNREACHABLE -\nSTUCK -\nLOOP L3: L3 L4 L5 L6 L7 LEADING -\nLEVEL 0\nINTERVAL L0: L0 L1 L2\nINTERVAL L3: L3 L4 L5 L6 L7 L8\nLEVEL 1\nINTERVAL L0: L0 L3\nSHAPE REDUCIBLE\nUSE\nVAR c RF=Y OW=N LW=N NR=N NW=Y EU=Y\nVAR v RF=N OW=N LW=N NR=N NW=N EU=N\nVAR i RF=N OW=N LW=N NR=N NW=N EU=N\nFLOW\nVAR c FROM c TESTS -\nVAR v FROM c TESTS L4\nVAR i FROM c TESTS L4\nPATHS\nARC a1 L0 L1\nARC a2 L1 L2\nARC a3 L2 L3\nARC a4 L3 L4\nARC a5 L4 L8\nARC a6 L4 L5\nARC a7 L5 L6\nARC a8 L6 L7\nARC a9 L7 L3\nE1 = a1 . a2\nE2 = E1 . a3\nE3 = a4 . a6\nE4 = a4 . a5\nE5 = E3 . a7\nE6 = E5 . a8\nE7 = E6 . a9\nE8 = E7 *\nE9 = E2 . E8\nE10 = E9 . E4\nALL = E10\nSEMANTIC\nREGION L0\nROW 1 PATH -\nSTOP HEAD L3\nv := 0\ni := 0\nREGION L3\nROW 1 PATH T\nIF c - i <= 0\nSTOP END\nROW 2 PATH FTT\nIF c - i > 0\nIF v <= 97\nIF i <= 8\nSTOP HEAD L3\nv := v + 2\ni := i + 1\nROW 3 PATH FF\nIF c - i > 0\nIF v > 97\nSTOP RANGE L5\nCOMPLIANCE\nREGION L0\nREGION L3\nTHREAT 1 PATH FTF STOP RANGE L6 FALSE\nTHREAT 2 PATH FF STOP RANGE L5 SHOWN c = 1, v = 98, i = 0\nTHREATS 2 FALSE 1 SHOWN 1 OPEN 0 PAST 0\nSTATUS 1\n";

/// A jump into a loop behind its head: its intervals do not ascend.
const JUMP: &str =
    "TITLE t;\nPROC p;\nIN x : 0 .. 9;\nPRE TRUE;\nPOST TRUE;\nGOTO a;\nLOOP;\nLOOP;\nEXIT WHEN x = 1;\nENDLOOP;\nEXIT WHEN x = 2;\nLABEL a;\nENDLOOP;\nENDPROC;\nFINISH;\n";

/// Its report.
const JUMP_REPORT: &str =
    "MALPAS PROFILE 1\nTITLE t\nPROCEDURE p LINES 10\nCONTROL\nUNREACHABLE -\nSTUCK -\nLOOP L3: L3 L4 L5 LEADING -\nLOOP L7: L2 L3 L4 L5 L6 L7 L8 LEADING -\nLEVEL 0\nINTERVAL L0: L0 L1\nINTERVAL L7: L7 L8 L2\nINTERVAL L3: L3 L4 L5 L6 L9\nLEVEL 1\nINTERVAL L0: L0\nINTERVAL L7: L7 L3\nLEVEL 2\nINTERVAL L0: L0 L7\nSHAPE REDUCIBLE\nUSE\nVAR x RF=Y OW=N LW=N NR=N NW=Y EU=Y\nFLOW\nVAR x FROM x TESTS -\nPATHS\nARC a1 L0 L1\nARC a2 L1 L7\nARC a3 L2 L3\nARC a4 L3 L4\nARC a5 L4 L6\nARC a6 L4 L5\nARC a7 L5 L3\nARC a8 L6 L9\nARC a9 L6 L7\nARC a10 L7 L8\nARC a11 L8 L2\nE1 = a1 . a2\nE2 = a10 . a11\nE3 = E2 . a3\nE4 = a4 . a6\nE5 = a4 . a5\nE6 = E4 . a7\nE7 = E5 . a9\nE8 = E5 . a8\nE9 = E6 *\nE10 = E3 . E9\nE11 = E10 . E7\nE12 = E3 . E9\nE13 = E12 . E8\nE14 = E11 *\nE15 = E1 . E14\nE16 = E15 . E13\nALL = E16\nSEMANTIC\nREGION L0\nROW 1 PATH -\nSTOP HEAD L7\nREGION L3\nROW 1 PATH TF\nIF x = 1\nIF x /= 2\nSTOP HEAD L7\nROW 2 PATH F\nIF x /= 1\nSTOP HEAD L3\nREGION L7\nROW 1 PATH -\nSTOP HEAD L3\nCOMPLIANCE\nREGION L0\nREGION L3\nREGION L7\nTHREATS 0 FALSE 0 SHOWN 0 OPEN 0 PAST 0\nSTATUS 0\n";

/// A loop that never ends.
const ENDLESS: &str =
    "TITLE t;\nPROC p;\nOUT y : 0 .. 1;\nPRE TRUE;\nPOST TRUE;\nLOOP;\nSKIP;\nENDLOOP;\nENDPROC;\nFINISH;\n";

/// Its report.
const ENDLESS_REPORT: &str =
    "MALPAS PROFILE 1\nTITLE t\nPROCEDURE p LINES 5\nCONTROL\nUNREACHABLE L4\nSTUCK L0 L1 L2 L3\nLOOP L1: L1 L2 L3 LEADING -\nLEVEL 0\nINTERVAL L0: L0\nINTERVAL L1: L1 L2 L3\nLEVEL 1\nINTERVAL L0: L0 L1\nSHAPE REDUCIBLE\nUSE\nVAR y RF=N OW=N LW=N NR=Y NW=Y EU=N\nFLOW\nVAR y FROM - TESTS -\nPATHS\nARC a1 L0 L1\nARC a2 L1 L2\nARC a3 L2 L3\nARC a4 L3 L1\nALL = 0\nSEMANTIC\nREGION L0\nROW 1 PATH -\nSTOP HEAD L1\nREGION L1\nROW 1 PATH -\nSTOP HEAD L1\nCOMPLIANCE\nREGION L0\nREGION L1\nTHREATS 0 FALSE 0 SHOWN 0 OPEN 0 PAST 0\nSTATUS 0\n";

/// The sections of a procedure without variables and body.
const EMPTY_SECTIONS: &str =
    "CONTROL\nUNREACHABLE -\nSTUCK -\nLEVEL 0\nINTERVAL L0: L0 L1\nSHAPE REDUCIBLE\nUSE\nFLOW\nPATHS\nARC a1 L0 L1\nALL = a1\nSEMANTIC\nREGION L0\nROW 1 PATH -\nSTOP END\nCOMPLIANCE\nREGION L0\nTHREATS 0 FALSE 0 SHOWN 0 OPEN 0 PAST 0\n";

/// The text with its first `from` turned into `to`.
fn changed(alloc: Global, text: &str, from: &str, to: &str) -> Result<String, Fail> {
    let (before, after) = text.split_once(from).ok_or("no such part")?;
    let mut all = String::from_str(alloc, before)?;
    all.push_str(to)?;
    all.push_str(after)?;
    Ok(all)
}

/// The text with its first `from` written so many times more.
fn repeated(alloc: Global, text: &str, from: &str, times: usize) -> Result<String, Fail> {
    let (before, after) = text.split_once(from).ok_or("no such part")?;
    let mut all = String::from_str(alloc, before)?;
    for _ in 0..times {
        all.push_str(from)?;
    }
    all.push_str(from)?;
    all.push_str(after)?;
    Ok(all)
}

/// Runs the top call on a text with ample memory and compares what it writes.
fn expect(
    rt: &impl Abort,
    alloc: Global,
    text: &[u8],
    status: u8,
    written: &str,
) -> Result<(), Fail> {
    let mut source = SureSource::new(alloc, text)?;
    let mut sink = SureSink::new(alloc, 50_000)?;
    let outcome = malpas(alloc, &[], &mut source, &mut sink);
    assert_eq!(rt; sink.held(), written.as_bytes());
    assert_eq!(rt; outcome.status, status);
    assert_eq!(rt; outcome.report.is_some(), status <= 1);
    Ok(())
}

#[test]
fn reports_texts(rt: HostRuntime) -> Result<(), Fail> {
    for (text, status, written) in [
        (COPY, 0, COPY_REPORT),
        (VALVE, 0, VALVE_REPORT),
        (MIXED, 1, MIXED_REPORT),
        (BRANCH, 0, BRANCH_REPORT),
        (COUNTING, 1, COUNTING_REPORT),
        (JUMP, 0, JUMP_REPORT),
        (ENDLESS, 0, ENDLESS_REPORT),
    ] {
        expect(&rt, rt.alloc(), text.as_bytes(), status, written)?;
    }
    Ok(())
}

/// 64 procedures, whose names are two letters each, from `aa` to `hh`, and their report.
#[test]
fn reports_64_procedures(rt: HostRuntime) -> Result<(), Fail> {
    let alloc = rt.alloc();
    let mut text = String::from_str(alloc, "TITLE t;\n")?;
    let mut written = String::from_str(alloc, "MALPAS PROFILE 1\nTITLE t\n")?;
    for k in 0..64u8 {
        let first = char::from(b'a' + k / 8);
        let second = char::from(b'a' + k % 8);
        let opening = format!(in alloc; "PROC {first}{second};\n")?;
        text.push_str(opening.as_str())?;
        text.push_str("PRE TRUE;\nPOST TRUE;\nENDPROC;\n")?;
        let title = format!(in alloc; "PROCEDURE {first}{second} LINES 2\n")?;
        written.push_str(title.as_str())?;
        written.push_str(EMPTY_SECTIONS)?;
    }
    text.push_str("FINISH;\n")?;
    written.push_str("STATUS 0\n")?;
    expect(&rt, alloc, text.as_str().as_bytes(), 0, written.as_str())
}

#[test]
fn refuses_texts(rt: HostRuntime) -> Result<(), Fail> {
    let alloc = rt.alloc();
    expect(
        &rt,
        alloc,
        b"",
        2,
        "malpas: E06 at byte 0: statement out of order\n",
    )?;
    expect(
        &rt,
        alloc,
        b"[\xc8]",
        2,
        "malpas: E02 at byte 1: byte is not ASCII\n",
    )?;
    for (from, to, written) in [
        (
            "FINISH;",
            "FINISH; FINISH;",
            "malpas: E06 at byte 149: statement out of order\n",
        ),
        (
            "d := a;",
            "d := a < b < c;",
            "malpas: E05 at byte 108: statement has no form\n",
        ),
        (
            "d := a;",
            "ENDIF;",
            "malpas: E07 at byte 108: block or label unmatched\n",
        ),
        (
            "LOCAL d",
            "LOCAL a",
            "malpas: E08 at byte 69: name declared twice: a\n",
        ),
        (
            "d := a;",
            "d := e;",
            "malpas: E09 at byte 108: name unknown: e\n",
        ),
        (
            "d := a;",
            "d := a < 3;",
            "malpas: E10 at byte 108: wrong type\n",
        ),
        (
            "d := a;",
            "a := d;",
            "malpas: E11 at byte 108: wrong mode\n",
        ),
        (
            "LOCAL d : 0 .. 9",
            "LOCAL d : 9 .. 0",
            "malpas: E12 at byte 69: range is empty\n",
        ),
        (
            "d := a;",
            "d := a * 9223372036854775807 * 9223372036854775807;",
            "malpas: E13 at byte 108: expression too wide\n",
        ),
        (
            "d := a;",
            "d #= a;",
            "malpas: E03 at byte 110: no such token\n",
        ),
        (
            "0 .. 9",
            "0 .. 9223372036854775808",
            "malpas: E04 at byte 32: number too large\n",
        ),
    ] {
        let text = changed(alloc, COPY, from, to)?;
        expect(&rt, alloc, text.as_str().as_bytes(), 2, written)?;
    }
    let long = changed(alloc, COPY, "ENDPROC;\n", "SKIP;\nENDPROC;\n")?;
    let text = repeated(alloc, long.as_str(), "SKIP;\n", 995)?;
    expect(
        &rt,
        alloc,
        text.as_str().as_bytes(),
        2,
        "malpas: E14 at byte 6108: too many lines\n",
    )
}

#[test]
fn reads_a_text_of_the_greatest_length(rt: HostRuntime) -> Result<(), Fail> {
    let alloc = rt.alloc();
    let mut text = vec![in alloc; b' '; 1_048_427]?;
    text.extend_from_slice(COPY.as_bytes())?;
    expect(&rt, alloc, text.as_slice(), 0, COPY_REPORT)?;
    text.push(b' ')?;
    expect(
        &rt,
        alloc,
        text.as_slice(),
        2,
        "malpas: E01 at byte 1048576: text too long\n",
    )
}

/// How many procedures the report has, and how many bytes were written, where the call to a sink of this number fails.
fn cut_short(alloc: Global, text: &str, failing: usize) -> Result<(usize, usize), Fail> {
    let mut source = MemSource::new(alloc, text.as_bytes(), 64, &[])?;
    let mut sink = MemSink::new(alloc, 16, 50_000, &[failing])?;
    let outcome = malpas(alloc, &[], &mut source, &mut sink);
    if outcome.status != 4 || !VALVE_REPORT.as_bytes().starts_with(sink.held()) {
        return Err(Fail::from("not cut short"));
    }
    let report = outcome.report.ok_or("no report")?;
    Ok((report.procs.len(), sink.held().len()))
}

#[test]
fn tells_faults_of_source_and_sink(rt: HostRuntime) -> Result<(), Fail> {
    let alloc = rt.alloc();
    assert_eq!(rt; cut_short(alloc, VALVE, 1)?, (1, 0));
    let (procedures, written) = cut_short(alloc, VALVE, 40)?;
    assert!(rt; procedures == 1 && written <= 624, "{written}");

    let mut source = MemSource::new(alloc, COPY.as_bytes(), 64, &[2])?;
    let mut sink = MemSink::new(alloc, 16, 1000, &[])?;
    let outcome = malpas(alloc, &[], &mut source, &mut sink);
    assert_eq!(rt; outcome.status, 3);
    assert!(rt; sink.held().is_empty());
    Ok(())
}

#[test]
fn answers_words_that_spell_no_request(rt: HostRuntime) -> Result<(), Fail> {
    let alloc = rt.alloc();
    let mut words = Vec::new(alloc);
    words.push(String::from_str(alloc, "x")?)?;
    let mut source = SureSource::new(alloc, COPY.as_bytes())?;
    let mut sink = SureSink::new(alloc, 1000)?;
    let outcome = malpas(alloc, &words, &mut source, &mut sink);
    assert_eq!(rt; outcome.status, 6);
    assert_eq!(rt; sink.held(), b"malpas: words not understood\n".as_slice());
    Ok(())
}
