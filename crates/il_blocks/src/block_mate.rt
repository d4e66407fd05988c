ghost use Rattle.std.specs.Prelude.{◌≡◌, map, reverse, length, IfOk};
ghost use Rattle.il_core.specs.Statement.{placed};
ghost use Rattle.il_syntax.specs.Order.{IsInOrder};
ghost use Rattle.il_blocks.specs.BlockFault.{HasNoFault};
ghost use Rattle.il_blocks.specs.BlockTable.{AreMates, IsListed, head, noted};

use crate::block::{Closer, OpenBlock, closed_by, innermost, pass};
use il_core::{NoMemory, Stmt};
use std::alloc::Global;

/// The statements that belong together. Each list has a number per statement, 0 where it tells nothing.
#[derive(Drop)]
pub(crate) struct Mates {
    /// For each statement that opens a block, the one that closes it.
    pub(crate) ends: Vec<usize>,
    /// For each EXIT the innermost LOOP around it, for each ENDLOOP its LOOP.
    pub(crate) heads: Vec<usize>,
}

/// The number of the innermost LOOP that is open, or 0.
fn head(blocks: &[OpenBlock]) -> usize
    ensures { result ≡ head (reverse blocks.now) }
{
    match innermost(blocks) {
        Some(at) => at,
        None => 0,
    }
}

/// Notes the statement numbered `at` as the end of the innermost open block, where it closes one.
fn note(ends: &mut Vec<usize>, blocks: &[OpenBlock], at: usize, closer: Option<Closer>)
    requires { IsListed (reverse blocks.now) (length ends.old.items) }
    ensures { ends.new.items ≡ noted closer (reverse blocks.now) at ends.old.items }
{
    if let (Some(_), Some(top)) = (closer, blocks.last()) {
        ends[top.at] = at;
    }
}

/// The statements that belong together, where all are matched and in order. It takes time linear in the statements.
pub(crate) fn find_mates(alloc: Global, stmts: &[Stmt]) -> Result<Mates, NoMemory>
    requires order { IsInOrder (map placed stmts.now) }
    requires matched { HasNoFault (map placed stmts.now) }
    ensures { IfOk result (λ mates. AreMates (map placed stmts.now) mates.ends.items mates.heads.items) }
{
    let mut blocks = Vec::new(alloc);
    let mut ends = Vec::new(alloc);
    let mut heads = Vec::new(alloc);
    for (i, stmt) in stmts.iter().enumerate() {
        note(&mut ends, blocks.as_slice(), i, closed_by(&stmt.form));
        ends.push(0)?;
        heads.push(head(blocks.as_slice()))?;
        pass(&mut blocks, i, &stmt.form)?;
    }
    Ok(Mates { ends, heads })
}
