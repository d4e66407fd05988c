//! The law of checked procedures, as the contract of a function that does nothing.
ghost use Rattle.il_built.specs.Laws.{ProceduresAreChecked};

/// Each procedure of the checked text of statements in order, without a fault and with their links, is a checked procedure.
/// This law costs nothing.
pub fn procedures_are_checked()
    ensures { ProceduresAreChecked }
{}
