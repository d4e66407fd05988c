//! The graph of a procedure: a node for each line with what it reads and writes, an arc for each line and each line to
//! which it may lead, and searches in such graphs.
//!
//! `build` makes the graph of a checked procedure in time linear in its lines and expressions. `search` marks what can
//! be reached from seeds by the worklist method (Tarjan, Depth-first search and linear graph algorithms, 1972), in time
//! linear in nodes and arcs.
#![tactic(auto)]

mod building;
mod graph;
mod laws;
mod masks;
mod paths;
mod rows;
mod searching;

pub use building::build;
pub use graph::{Arc, FlowGraph, Node, NodeKind};
pub use laws::{steps_go_along_arcs, walks_are_paths};
pub use paths::paths_from;
pub use rows::{predecessors, successors};
pub use searching::{reachable, search};
