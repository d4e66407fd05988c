//! Reads the bytes of a text as its tokens, or as its one refusal, by the rule of the longest match (Lesk, "Lex: a lexical
//! analyzer generator", 1975): at each place the longest token is taken, and white space and comments are passed over.
//!
//! Three passes go over the whole text, each with its own refusal: for a byte above 127, for a place where no token
//! stands, and for a number above its limit. Each is linear in the text, and the only memory taken is the list of tokens.
//! The law `one_reading` says that no text has two readings, so what `lex` answers is the only answer.
#![tactic(auto)]

mod keyword;
mod lexing;
mod limit;
mod number;
mod step;
mod symbol;
mod word;

pub use lexing::{lex, one_reading};
