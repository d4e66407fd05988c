//! Path expressions: all paths from the first line of a procedure to its last, as sums, products and stars over its arcs
//! (Carré, An algebra for network routing problems, 1971; Tarjan, A unified approach to path problems, 1981).
//!
//! `paths` makes one plan of elimination over the arcs of the lines that are reached, and writes those of its steps that
//! the answer uses as definitions. Its time is that of the plan, and linear in the arcs and the steps besides.
#![tactic(auto)]

mod definitions;
mod laws;
mod live;
mod path_report;
mod report;

pub use laws::definitions_name_earlier_ones;
pub use path_report::paths;
pub use report::{Def, PathReport, Ref};
