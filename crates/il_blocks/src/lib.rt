//! Blocks, labels and lines of the statements of a text: whether each ELSE, ENDIF, ENDLOOP and ENDPROC closes the innermost
//! open block, each EXIT stands in a loop, each label of a procedure stands once and each GOTO names one; or the first
//! statement at which that fails. Where all of it holds, the line of each statement and the line to which it may jump. Open
//! blocks are kept on a stack (Friedrich Bauer and Klaus Samelson, 1960) and labels in a hash table, so the time is linear
//! in the statements.
#![tactic(auto)]

mod block;
mod block_fault;
mod block_label;
mod block_line;
mod block_link;
mod block_mate;

pub use block::{Closer, Kind};
pub use block_fault::{check_blocks, one_links, one_match};
pub use block_link::match_blocks;
