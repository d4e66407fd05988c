//! The limits of texts with calls. Each call counts in full, as its procedure does, but no call is expanded: what counts of each procedure
//! is kept as its statements are gone through, so the time is linear in the text but for the look-ups by name.
#![tactic(auto)]

mod extent;
mod limits;
mod measures;

pub use limits::first_past_limits;
