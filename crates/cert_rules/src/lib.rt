//! When a certificate is accepted for some literals: the definition alone, for all that speak of certificates.
//!
//! A certificate is a sum of inequalities, each taken as often as a factor says, in which nothing is left but a negative
//! number (J. Farkas, Theorie der einfachen Ungleichungen, 1902); or it splits a `/=` into `<` and `>` and has a certificate
//! for each side. Where a literal's coefficients have a common factor its bound is rounded to a whole number (R. E. Gomory,
//! Outline of an algorithm for integer solutions to linear programs, 1958).
#![tactic(auto)]
