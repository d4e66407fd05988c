//! What the words of a command line ask for. [`read_words`] goes over the words once, takes no memory, and answers the
//! [`Request`] that they spell, exactly where they spell one: report words in any order, also repeated, and at most one
//! number of a text that is to be made. [`one_request`] is the law that no list of words spells two requests. It costs
//! time linear in the bytes of the words.
#![tactic(auto)]

mod asked;
mod number;
mod reading;
mod section;
mod selection;
mod spelt;

pub use reading::{one_request, read_words};
pub use selection::Selection;
pub use spelt::Request;
