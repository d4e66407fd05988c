//! Calls expanded in place: the text without calls that a text with calls stands for, with the written line from which each
//! line comes and the lines of each call.
//!
//! What each call becomes is defined in `il_called`; `expand` makes exactly that, in time linear in the expanded text. The
//! machine that runs a text with calls as it is written, with a stack of frames, is defined in `specs/Stack.antt`.
#![tactic(auto)]

mod calls;
mod entering;
mod expanded;
mod expanding;
mod inlined;
mod laws;
mod layout;
mod leaving;
mod lines;
mod naming;
mod origins;
mod places;
mod renumbering;
mod variables;

pub use expanded::Expanded;
pub use expanding::expand;
pub use laws::{same_expansion, worked_run};
