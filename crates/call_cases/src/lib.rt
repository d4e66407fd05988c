//! Worked cases of texts with calls, tried through the public calls that accept and report them: each rule that a CALL may
//! break, with a text that breaks it and one beside it that does not, what calls become, and the tables of their
//! expansions. Nothing but tests stands here, so that no layer is proved with its tests.
#![tactic(auto)]

#[cfg(test)]
mod expansions;
#[cfg(test)]
mod fits;
#[cfg(test)]
mod forms;
#[cfg(test)]
mod names;
#[cfg(test)]
mod reports;
#[cfg(test)]
mod rows;
#[cfg(test)]
mod sizes;
#[cfg(test)]
mod types;
