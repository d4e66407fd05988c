//! From statements to the checked text. A text whose statements stand in order and have their links is checked by the rules of names,
//! types, modes, ranges, bounds and limits; where it keeps them all, what a name stands for is put in its place: constants and
//! enumeration values become numbers, variables and OLD values the numbers of their places, types the ranges of places. Each procedure
//! is made from the statements between its PROC and the next, so the work is linear in the text but for the look-ups by name.
#![tactic(auto)]

mod checking;
mod expressions;
mod laws;
mod lines;
mod places;
mod procedures;
mod spans;
mod variables;

pub use checking::{check, profile_of, title_of};
pub use expressions::{build_expression, place_of_name};
pub use laws::procedures_are_checked;
pub use lines::{line_of, target_at};
pub use procedures::named;
pub use spans::{Span, span_of};
pub use variables::places_of;
