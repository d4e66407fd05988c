//! Names of texts with calls. A call brings the places of the procedure called under new names, and none of these may be a variable of the
//! caller. No expansion is made, whose places may be more than memory holds: a variable of the caller can be a new name only where it begins
//! as the new names of that call do, so each procedure called is searched for those variables alone that begin so, and deeper only as far as
//! some name goes on. The names of a procedure are sorted, so that those that begin alike stand side by side.
#![tactic(auto)]

mod clash;
mod gathering;
mod number;
mod outline;
mod search;
mod sorted;
mod stem;
mod twice;

pub use twice::first_twice;
