//! The table of a region: the rows of its paths that are not plainly refuted, with the normal forms of their literals and
//! values. Each input of the region has exactly one row, and stepping the lines from it gives the row's stop and values,
//! so that the table says in one look what the lines do (J. C. King, Symbolic execution and program testing, 1976).
//!
//! One walk down the tree of decisions lists tables, long rows and hazards, the long paths that stop badly. What it finds
//! of the literals so far it hands down: below literals that are plainly refuted nothing is solved any more.
#![tactic(auto)]

mod environment;
mod exploration;
mod hazard;
mod laws;
mod making;
mod prefix;
mod refuting;
mod row;
mod segment;
mod walking;

pub use hazard::{Hazard, HazardsOr};
pub use laws::{inputs_have_one_long_row, inputs_have_one_row, one_table};
pub use making::{hazards, hazards_by, long_rows, table, table_by};
pub use row::{Row, TableOr};
