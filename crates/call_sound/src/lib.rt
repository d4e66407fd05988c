//! Laws of texts with calls that keep all rules: what their statements and links stand for is a text with calls as the machine
//! that expands it takes it.
#![tactic(auto)]

mod laws;

pub use laws::{
    accepted_are_checked, calls_fit, formed_are_checked, texts_are_framed, uncalled_are_checked,
    widths_are_lengths, worked_text,
};
