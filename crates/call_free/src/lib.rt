//! Laws of texts without a CALL: they are judged as before there were calls, and what is made of them is the checked text as
//! before.
#![tactic(auto)]

mod laws;

pub use laws::{answers_alike, stands_for_itself};
