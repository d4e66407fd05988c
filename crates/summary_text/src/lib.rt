//! The summary of a report: nine lines with the number of the made text and how many lines, regions, rows, threats, refuted,
//! shown and open threats and regions past their size the report has, over all its procedures. [`put_summary`] writes it.
//! It takes no memory and costs time linear in the procedures, tables and threats.
#![tactic(auto)]

mod counts;
mod summary;

pub use summary::put_summary;
