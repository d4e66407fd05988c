//! Laws of calls expanded in place: what the expansion does with a line leaves its meaning as it is, and the expanded run goes
//! as the stack machine does.
#![tactic(auto)]

mod laws;

pub use laws::{
    expanded_runs_alike, inlined_lines_step_alike, moved_lines_step_alike,
    renumbered_have_same_value,
};
