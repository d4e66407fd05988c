//! The calls of a text that fit: each names an earlier procedure, has an argument for each of its parameters, gives each INOUT and OUT
//! parameter a variable of its own, and brings no name of more than 40 bytes. No call is expanded: of each procedure the length of the
//! longest name in its expansion is kept as its statements are gone through.
#![tactic(auto)]

mod arguments;
mod fits;
mod longest;

pub use fits::first_unfit;
