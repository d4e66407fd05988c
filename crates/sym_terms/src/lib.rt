//! Terms over the places of a state: their values, their substitution, and what a substitution costs. A term stands
//! either as a tree or in a pool, where each node is kept once and named by its number (hash consing), so that terms
//! share what they have in common. Substitution in a pool visits each distinct node once. The measures of a
//! substituted term follow from those of its parts, and are capped, so they are found without building it.
#![tactic(auto)]

mod environment;
mod measuring;
mod node;
mod pool;
mod replacing;
mod substitution;
mod term;

pub use environment::Env;
pub use measuring::{DEPTH_CAP, NODE_CAP, TermMeasure, WEIGHT_CAP, measure};
pub use node::{TermId, TermNode};
pub use pool::Pool;
pub use substitution::subst;
pub use term::{Literal, Term};
