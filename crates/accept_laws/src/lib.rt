//! Laws on accepted texts, by the definitions of the front end: [`decided`] says that each text is accepted or has a first
//! refusal, and [`no_default_is_taken`] that in an accepted text each look-up of a name finds a value. That no text has two
//! answers is a law of `acceptance`. The laws cost nothing.
#![tactic(auto)]

mod laws;

pub use laws::{decided, no_default_is_taken};
