//! The regions of a reducible procedure and their paths. A region begins at line 0 or at a loop head; its paths are
//! chains of ways of lines, up to a halt or to the first loop head, and its long paths go on through that head's leading
//! assertions (the cut points of Floyd, Assigning meanings to programs, 1967). Each state takes exactly one of them; in
//! the order of their decisions they are the ways down one finite tree of decisions. The size of a region is told from
//! its long paths.
#![tactic(auto)]

mod counting;
mod heads;
mod laws;
mod limit;
mod sizing;
mod tally;
mod walk;

pub use laws::{
    decisions_tell_paths, heads_cut_cycles, inputs_take_one_path, one_listing, paths_are_listed,
};
pub use limit::Limit;
pub use sizing::{Sizes, size};
pub use walk::{first_node, leading_at, loop_of};
