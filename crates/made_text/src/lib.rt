//! Texts of a known size with known answers. [`make_text`] makes the text of a number: one procedure with so many loops, of
//! which the k-th raises a variable to at least k, so that its analyses are known beforehand. [`made_lines`] is the law on
//! the number of its lines. It costs time linear in the number.
#![tactic(auto)]

mod making;

pub use making::{made_lines, make_text};
