//! Elimination of nodes from a graph, over any algebra: what all paths between two nodes say together.
//!
//! From the arcs of a graph and an order of its nodes, `plan` answers the sums, products and stars by which each node is
//! eliminated in turn (Kleene 1956; Carré 1971), as plain data that depends on the arcs' ends alone. The words of an
//! answer are exactly the paths from the start to its target. `evaluate` runs a plan over the values of any `Algebra`,
//! and so joins exactly what some path joins; `BitRelation` is the algebra of relations on few points.
//!
//! A plan is made in rows that hold only their entries, which are given up once it is made: it takes memory for each entry
//! that is made on the way, and time for each product and for finding its entries by halving. `evaluate` keeps a value until
//! its last use; `eliminate` makes a plan and evaluates it at once.
#![tactic(auto)]

mod algebra;
mod board;
mod elimination;
mod planning;
mod relation;
mod row;
mod steps;

pub use algebra::Algebra;
pub use elimination::{eliminate, evaluate};
pub use planning::plan;
pub use relation::BitRelation;
pub use steps::{Ends, Entry, Plan, Step};
