//! Certificates that no input of a region meets the literals of a threat.
//!
//! A certificate is a sum of inequalities, each taken as often as a factor says, in which nothing is left but a negative
//! number (J. Farkas, Theorie der einfachen Ungleichungen, 1902); or it splits a `/=` into `<` and `>` and has a certificate
//! for each side. Where a literal's coefficients have a common factor its bound is rounded to a whole number (R. E. Gomory,
//! Outline of an algorithm for integer solutions to linear programs, 1958). It tells by sums alone, whoever made it.
#![tactic(auto)]

mod adding;
mod comparing;
mod counting;
mod factor;
mod holding;
mod laws;
mod making;
mod quantity;
mod refuting;
mod settled;
mod summing;

pub use holding::holds;
pub use laws::{
    accepted_threats_are_not_taken, accepted_threats_have_no_input, one_quantity,
    worked_certificates,
};
pub use making::make_cert;
pub use settled::{certified_threats_mean_no_bad_run, listed_threats_are_sound};
