//! The decision under every verdict: whether some input of a region meets the literals of a path, and which is the least.
//! An easy literal bounds a place, or the difference of two, times a number. Divided by the number and rounded to the side
//! that keeps the same whole numbers it is a difference constraint, and the least solution of these is found by a search
//! for shortest paths (R. Bellman, On a routing problem, 1958). A `/=` is a choice between `<` and `>`: of the first eight
//! both sides are tried, and each further one is judged alone beside them. So one decision costs at most 2^8 searches, and
//! 2^9 for each further `/=` that the answer does not meet.
#![tactic(auto)]

mod laws;
mod least;
mod reading;
mod system;

pub use laws::{least_meets_core, refuted_stays_refuted, unmet_is_loose};
pub use least::least_input;
pub use reading::{Reading, read};
pub use system::{System, system_of};
