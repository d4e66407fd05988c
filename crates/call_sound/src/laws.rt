//! The laws of texts with calls that keep all rules, as contracts of functions that do nothing.
ghost use Rattle.call_sound.specs.Laws.{AcceptedAreChecked, CallsOfTextsFit, FormedAreChecked, TextsAreFramed, UncalledAreChecked, WidthsAreLengths};
ghost use Rattle.call_sound.specs.WorkedText.{WorkedText};

/// The text with calls of statements in order that keep all rules has from 1 to 64 procedures and a profile, and the variables of
/// each procedure stand before its OLD copies. This law costs nothing.
pub fn texts_are_framed()
    ensures { TextsAreFramed }
{}

/// Each call of the text with calls of statements in order that keep all rules names an earlier procedure and has an argument for
/// each of its parameters, and no variable is handed back to twice. This law costs nothing.
pub fn calls_fit()
    ensures { CallsOfTextsFit }
{}

/// The expansion of each procedure of the text with calls of statements in order that keep all rules has as many lines as the rules
/// count for it. This law costs nothing.
pub fn widths_are_lengths()
    ensures { WidthsAreLengths }
{}

/// The text with calls of statements in order that keep all rules, with names of variables of at most 40 bytes, is a checked text
/// with calls where its procedures are well formed. This law costs nothing.
pub fn formed_are_checked()
    ensures { FormedAreChecked }
{}

/// With a SKIP for each call, each procedure of the text with calls of statements in order that have their links and keep all rules
/// is a checked procedure. This law costs nothing.
pub fn uncalled_are_checked()
    ensures { UncalledAreChecked }
{}

/// Statements in order that have their links and keep all rules, with names of variables of at most 40 bytes and ranges within
/// 2 ^ 126 on either side of 0, stand for a checked text with calls. This law costs nothing.
pub fn accepted_are_checked()
    ensures { AcceptedAreChecked }
{}

/// A text of two procedures, one of which calls the other, worked out by hand: its statements keep all that `accepted_are_checked`
/// asks for, and stand for the text with calls that is expanded by hand in `il_called`. This law costs nothing.
pub fn worked_text()
    ensures { WorkedText }
{}
