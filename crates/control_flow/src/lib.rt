//! The control structure of a procedure: which lines are unreachable or stuck, its loops, and whether each cycle has one
//! entry, as the graph is then reducible (Allen and Cocke, 1976).
#![tactic(auto)]

mod analysis;
mod ascending;
mod control;
mod evidence;
mod laws;
mod loops;
mod marks;
mod rows;
mod shaping;
mod splitting;

pub use analysis::control_of;
pub use control::{Control, Entries, LoopInfo, Shape};
pub use laws::reducible_cycles_hold_a_head;
