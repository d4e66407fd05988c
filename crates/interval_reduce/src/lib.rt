//! The reduction of a graph by intervals: an interval is a part of the graph that is entered at its head alone, and the
//! next level has one node for each interval (Allen and Cocke, A program data flow analysis procedure, 1976). It ends in
//! one node exactly where no cycle can be entered first at two nodes.
#![tactic(auto)]

mod arcs;
mod choice;
mod derivation;
mod growth;
mod interval;
mod laws;
mod levels;

pub use derivation::derive;
pub use interval::{Derivation, Interval};
pub use laws::{levels_tell_shape, one_derivation, reduction_theorem};
