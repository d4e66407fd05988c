//! Worked cases of threats, tried through their public calls on procedures that are read from texts. Nothing but tests
//! stands here, so that no layer is proved with its tests.
#![tactic(auto)]

#[cfg(test)]
mod listed;
#[cfg(test)]
mod loops;
#[cfg(test)]
mod plain;
#[cfg(test)]
mod valve;
