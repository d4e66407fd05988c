//! From a procedure of an expanded text to its report.
//!
//! [`analyse_proc`] makes the graph of a procedure and hands it to the analyses of the graph layers; where the procedure
//! is reducible, it makes the tests of its lines as well, and from them the table of each region and the threats, with a
//! certificate for each that is refuted. To that it adds the lines that stand for each of its calls. Of the certificates that are given it checks those that name the procedure.
//! [`analyse`] does so for each procedure of a text.
#![tactic(auto)]

mod analysis;
mod calls;
mod certificates;
mod inputs;
mod slices;
mod tables;
mod whole;

pub use analysis::analyse_proc;
pub use whole::analyse;
