//! The law of sources, as the contract of a function that does nothing.
ghost use Rattle.info_flow.specs.Agreement.{EqualValues};

/// For every checked procedure, every variable and all sets that are closed under the rules of relevance: two runs that
/// end and whose initial states agree on what line 0 needs end with equal values of the variable.
pub fn equal_values()
    ensures { EqualValues }
{}
