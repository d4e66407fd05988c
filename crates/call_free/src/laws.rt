//! The laws of texts without a CALL, as contracts of functions that do nothing.
ghost use Rattle.call_free.specs.Laws.{AnswersAlike, StandsForItself};

/// The rules of texts with calls have the same answer to a text without a CALL as the rules of texts without calls: none where
/// no rule is broken, else the same refusal. This law costs nothing.
pub fn answers_alike()
    ensures { AnswersAlike }
{}

/// The text with calls of statements in order without a CALL that have their links and keep all rules is its own expansion: the
/// checked text that they stand for without calls. No line of it stands for a call, and each comes from itself. This law costs
/// nothing.
pub fn stands_for_itself()
    ensures { StandsForItself }
{}
