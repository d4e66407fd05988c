//! Laws of well-formed procedures with calls: where such a procedure keeps within the limits, its expansion is a checked
//! procedure, and a text of such procedures is a checked text with calls.
#![tactic(auto)]

mod laws;

pub use laws::{
    expansions_are_checked, texts_are_checked, well_formed_are_checked, worked_text,
    written_keep_limits,
};
