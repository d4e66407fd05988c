ghost use Rattle.accept_laws.specs.Decided.{Decided};
ghost use Rattle.accept_laws.specs.NoDefault.{NoDefaultIsTaken};

/// Each text, of whatever length, is accepted, with its expansion, or has a first refusal. This law costs nothing.
pub fn decided()
    ensures { Decided }
{}

/// In an accepted text the text with calls takes no default: in each statement each end of a range, each type, each variable
/// that is assigned, each name of an expression, each line to which it may jump, the POST of the procedure that it ends and
/// the earlier procedure that it calls, with what each of that one's parameters is given, is found by look-ups that have no
/// default, and is what the text with calls has in its place; so is the TITLE. The number of a variable, and of an OLD copy,
/// is that of its own place. This law costs nothing.
pub fn no_default_is_taken()
    ensures { NoDefaultIsTaken }
{}
