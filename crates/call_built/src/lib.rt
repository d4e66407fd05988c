//! From statements with calls to the text with calls. Each procedure is made from the statements between its PROC and the next, as one
//! without calls is; a CALL becomes the number of the procedure that it names with an argument for each parameter: the number of a place
//! where the parameter is handed back to a variable, else an expression. No call is expanded, so the time is linear in the text but for
//! the look-ups by name.
#![tactic(auto)]

mod arguments;
mod lines;
mod procedures;
mod text;

pub use procedures::called_procedures;
pub use text::call_text;
