//! Slices: what remains of a procedure when only the lines that decide the final value of one variable are kept.
//!
//! The relevant lines are those of information flow. A slice keeps their assignments and tests; every other assignment
//! and every assertion becomes SKIP, the precondition and the postcondition become TRUE, and every other test is fixed to
//! the side from which a relevant line is nearer (`specs/Slice.antt`). Weiser, Program slicing, 1984, asks of a slice that
//! it computes the same values of its variable; by `slices_end_alike` each ending run of the procedure has, from the
//! same state, an ending run of the slice with the same final value.
//!
//! How near a line is comes from one breadth-first search against the arcs (Moore, The shortest path through a maze,
//! 1959). A slice takes time linear in the lines, the arcs and the expressions. `outline` answers what a slice keeps and
//! fixes without making it.
#![tactic(auto)]

mod copying;
mod distance;
mod fixing;
mod laws;
mod lines;
mod outlining;
mod side;
mod sliced;
mod slicing;

pub use laws::{slices_are_checked, slices_end_alike};
pub use outlining::outline;
pub use sliced::{Fixed, Outline, SlicedProc};
pub use slicing::slice;
