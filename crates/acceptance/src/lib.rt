//! From the bytes of a text to its expansion.
//!
//! [`accept`] puts the lexer, the parser, the links of blocks, the check of names, types, modes, ranges, bounds, limits
//! and calls, and the expansion of calls behind each other; the first that refuses decides, and no text has two answers.
//! It takes time linear in the text and its expansion but for look-ups by name.
#![tactic(auto)]

mod acceptance;

pub use acceptance::{accept, one_answer};
