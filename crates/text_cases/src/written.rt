//! Texts.

/// A straight procedure.
pub const COPY: &[u8] =
    b"TITLE copy;\nPROC p;\nIN a : 0 .. 9;\nINOUT b : 0 .. 9;\nOUT c : 0 .. 9;\nLOCAL d : 0 .. 9;\nPRE TRUE;\nPOST TRUE;\nd := a;\nc := b;\nb := d;\nENDPROC;\nFINISH;\n";

/// A valve controller: constants, types, conditions, loops, assertions and two procedures.
pub const VALVE: &[u8] =
    b"TITLE valve;\nCONST full = 100;\nTYPE level = 0 .. full;\nTYPE state = ( shut, filling, draining );\nPROC fill;\nIN goal : level;\nINOUT height : level;\nOUT mode : state;\nPRE height <= goal;\nPOST height = goal AND OLD height <= height;\nmode := filling;\nLOOP;\nASSERT height <= goal;\nASSERT OLD height <= height;\nEXIT WHEN height = goal;\nIF height + 10 > goal;\nheight := goal;\nELSE;\nheight := height + 10;\nENDIF;\nENDLOOP;\nmode := shut;\nENDPROC;\nPROC drain;\nIN low : level;\nINOUT height : level;\nOUT mode : state;\nOUT alarm : BOOL;\nPRE low <= height;\nPOST height = low AND NOT alarm;\nmode := draining;\nalarm := FALSE;\nLOOP;\nASSERT low <= height;\nASSERT mode = draining;\nASSERT NOT alarm;\nEXIT WHEN height <= low;\nheight := height - 1;\nENDLOOP;\nIF mode = draining;\nmode := shut;\nELSE;\nalarm := TRUE;\nENDIF;\nENDPROC;\nFINISH;\n";
