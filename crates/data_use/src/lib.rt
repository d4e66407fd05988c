//! Data use: for each variable of a procedure six facts about the reads and writes of it along the walks of the
//! procedure's graph.
//!
//! A walk's events of a variable lead between seven points, each of which waits for one pattern of events. So each line
//! is a relation on points, and one elimination over the graph (Carré, Graphs and Networks, 1979) joins exactly what some
//! walk joins; the facts are then read from the relation of all walks. Nine variables share one relation.
//!
//! The cost is one elimination over the reachable lines for every nine variables; the facts of 60 variables of 1,000
//! lines take seven.
#![tactic(auto)]

mod lines;
mod points;
mod report;
mod routes;
mod row;

pub use report::data_use;
pub use row::UseRow;
