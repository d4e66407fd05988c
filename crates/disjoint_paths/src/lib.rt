//! Two paths from a line to a set of lines that share that line alone.
//!
//! A search finds a first path, and a second search finds another one beside it, which may take over parts of the
//! first, or the one line through which all paths go: the augmentation of a flow by one (Ford and Fulkerson, Maximal
//! flow through a network, 1956) where each line has room for one path (Menger, Zur allgemeinen Kurventheorie, 1927).
//! Both searches are linear in lines and arcs.
#![tactic(auto)]

mod fan;
mod pair;
mod paths;
mod start;
mod widening;

pub use pair::Pair;
pub use paths::{pair_from, two_paths};
