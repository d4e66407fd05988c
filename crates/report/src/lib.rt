//! What the suite answers about a text: the types of a report, what it is to be the report of a text, and what such a
//! report says of the runs of its procedures. How it is found and how it is written are matters of other crates.
//!
//! A report has a part for each procedure. Of a reducible one it tells the paths, the use of variables, the flow of
//! information, the slice for each variable, a table for each region with test inputs for its rows, and the threats, with a
//! certificate for each that is refuted; of any other one the control structure alone. Of each it tells which of the
//! certificates that were read for it hold. [`status_of`] tells whether anything is left to look at.
#![tactic(auto)]

mod report;
mod status;

pub use report::{
    Analyses, CallLine, CertRow, ProcReport, RegionInputs, RegionTable, Report, SliceRow,
};
pub use status::status_of;
