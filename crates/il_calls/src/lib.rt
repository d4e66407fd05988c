//! From statements to the text with calls. A text whose statements stand in order and have their links is checked by the rules of
//! texts with calls; where it keeps them all, each procedure is made from its statements, with its calls as they are written. No call
//! is expanded, so the work is linear in the text but for the look-ups by name and the search for clashes of names.
#![tactic(auto)]

mod checking;
mod variables;

pub use checking::check_calls;
