//! Certificates as text. [`cut`] finds where an input's text ends and its certificates begin, and [`read_certs`] reads
//! them, or tells the first line that cannot stand where it does. A [`Line`] is what one line says; its spelling is a
//! definition of its own, so that who writes certificates can be held to the very text that is read.
#![tactic(auto)]

mod laws;
mod line;
mod mark;
mod reading;

pub use laws::{one_reading, written_are_read};
pub use line::Line;
pub use mark::{MARK_LEN, cut};
pub use reading::read_certs;
