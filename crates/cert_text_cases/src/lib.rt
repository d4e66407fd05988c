//! Worked cases of certificates as text, tried through the public calls of their layer. Nothing but tests stands here, so
//! that no layer is proved with its tests.
#![tactic(auto)]

#[cfg(test)]
mod bad_lines;
#[cfg(test)]
mod marks;
#[cfg(test)]
mod readings;
