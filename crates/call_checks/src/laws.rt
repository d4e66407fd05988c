//! Laws of the expansions of well-formed procedures, as contracts of functions that do nothing.
ghost use Rattle.call_checks.specs.Laws.{ExpansionsAreChecked, TextsAreChecked, WellFormedAreChecked, WrittenKeepLimits};
ghost use Rattle.call_checks.specs.WorkedText.{WorkedText};

/// The expansion of a well-formed procedure is a checked procedure, where it has at most 1,000 lines and 64 places and those
/// that it may call are such expansions; so it may be called in its turn. This law costs nothing.
pub fn expansions_are_checked()
    ensures { ExpansionsAreChecked }
{}

/// Where each procedure of a text is well formed over those before it, and each expansion has at most 1,000 lines and 64
/// places, all expansions are checked procedures. This law costs nothing.
pub fn texts_are_checked()
    ensures { TextsAreChecked }
{}

/// A text of well-formed procedures whose expansions keep within the limits is a checked text with calls, where it has
/// allowed numbers, short names, and no call that hands two parameters back to one variable. This law costs nothing.
pub fn well_formed_are_checked()
    ensures { WellFormedAreChecked }
{}

/// Where each procedure of a text begins with an own line, a procedure that calls earlier ones has at most 1,000 lines and 64
/// places where its expansion has. This law costs nothing.
pub fn written_keep_limits()
    ensures { WrittenKeepLimits }
{}

/// A text that is well formed and two procedures that are not, worked out by hand.
pub fn worked_text()
    ensures { WorkedText }
{}
