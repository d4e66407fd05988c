//! Laws on the texts that `made_text` makes, for each number from 1 to 200, by the definitions of the front end:
//! [`made_statements`] says of which statements a made text is, [`made_statements_have_no_fault`] that these have
//! their blocks matched, break no rule and have no CALL, and [`made_texts_are_accepted`] that the text is accepted
//! and not refused. The proofs go over the lines, each of which is read as one statement whatever follows it, and
//! over the loops one by one. That statements without a CALL break no rule of texts with calls where they break none
//! of the others is a law of `call_free`. The laws cost nothing.
#![tactic(auto)]

mod laws;

pub use laws::{made_statements, made_statements_have_no_fault, made_texts_are_accepted};
