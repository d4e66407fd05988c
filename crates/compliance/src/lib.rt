//! Threats of a reducible procedure: the ways in which a run may come to a fault, fail an assertion or end outside the
//! postcondition, and why no run does where each of them is refuted.
//!
//! A run is cut at the loop heads that it passes, and each piece is a path of one region: this is the method of inductive
//! assertions (R. W. Floyd, Assigning meanings to programs, 1967).
#![tactic(auto)]

mod judging;
mod laws;
mod listing;
mod opening;
mod stepping;
mod threat;

pub use laws::{
    least_inputs_take_threats, one_verdict, open_threats_are_loose, refuted_lists_mean_no_bad_run,
    refuted_threats_mean_no_bad_run, short_paths_stay_within, threats_are_listed,
    threats_are_taken_soon, threats_are_taken_where_met, unmet_lists_mean_no_bad_run,
    unmet_threats_mean_no_bad_run,
};
pub use listing::threats;
pub use threat::{Threat, Verdict};
