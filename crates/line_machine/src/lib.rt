//! The line machine: one step of a checked procedure, and steps from one cut line to the next.
//!
//! A step evaluates one line's expression from left to right over whole numbers, with a fault for a divisor 0 and for
//! a value out of range. It takes no memory and time linear in the line's expression. Runs between cut lines are those
//! of the method of inductive assertions (Floyd 1967).
#![tactic(auto)]

mod bounding;
mod evaluation;
mod laws;
mod running;
mod stepping;

pub use bounding::{StaticBounds, static_bounds};
pub use evaluation::{calculate, is_related, negated, truth_value, value_in, whole_value};
pub use laws::{bounds_hold, division_is_euclidean, steps_stay_inside};
pub use running::run_to_cut;
pub use stepping::{decide, step, store};
