//! The ways through a line. Each line of a checked procedure is a tree of single decisions, in the order of evaluation:
//! a decision is a literal that is true or false, and at the end of each way through the tree stands what is assigned
//! and the next line or a halt. In every state exactly one way has only literals that hold, and it is the step of the
//! line machine. Divisors that may be 0 and values that may leave their range are decisions like any other, so paths
//! through lines also tell each fault (symbolic execution: King 1976).
//!
//! `lower` makes the decisions of all lines a graph of tests and assignments, in which the parts of a condition share
//! what follows them. It takes time linear in the length of the lines, though their ways may be as many as powers of
//! two.
#![tactic(auto)]

mod along;
mod assigning;
mod following;
mod graph;
mod laws;
mod lines;
mod lowering;
mod taken;
mod term;

pub use along::step_along;
pub use graph::{TestGraph, TestNode};
pub use laws::{
    one_way_holds, some_way, ways_are_steps, ways_differ, ways_go_along_arcs, ways_speak_of_places,
};
pub use lines::lower;
pub use taken::Taken;
