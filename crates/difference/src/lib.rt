//! Difference constraints: the least solution of constraints on the differences of unknowns within their ranges, or
//! evidence that there is none. The solver lifts each value from the least of its range until every constraint is met,
//! which is the search for shortest paths by Bellman over the graph whose arcs are the constraints (Carré, Graphs and
//! Networks). Each value carries the chain of arcs that proves it, so that a negative cycle is seen the moment that it
//! closes. The constraints lie in buckets by their left sides, and lift only where the value of that side has changed.
//! A lift costs one chain, at most as long as there are unknowns, and a look at each constraint of one bucket.
#![tactic(auto)]

mod answers;
mod chain;
mod constraint;
mod rounds;
mod solving;

pub use answers::{Solved, SplitSolved, refute, solve, solve_splits};
pub use constraint::{Constraint, Edge, Range64, Split};
