//! A text with calls, as it is written: the lines of its procedures, some of which call an earlier procedure of the text;
//! and what it is once each call is expanded in place, as definitions.
#![tactic(auto)]

mod called;
mod laws;

pub use called::{Argument, CallSpan, CalledLine, CalledProc, CalledText, Origin};
pub use laws::worked_expansion;
