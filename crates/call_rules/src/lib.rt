//! The rules of a text whose procedures may call earlier ones, as definitions: names, types, modes, ranges, bounds, limits, and calls that
//! fit. A call is held to the rules of the assignments that hand its arguments over and back, and to the limits as its whole expansion.
//! The rules that look at a statement with the declarations in force there are checked here, in time linear in the text but for the
//! look-ups by name; those that look at the expansions of the procedures called are checked in the crates above.
#![tactic(auto)]

mod callee;
mod calls;
mod laws;
mod parameters;
mod rules;

pub use callee::{parameters_named, procedure_named};
pub use calls::{back_to, is_returned};
pub use laws::{one_answer, worked_rules};
pub use parameters::{Parameter, Parameters};
pub use rules::first_of_call_rules;
