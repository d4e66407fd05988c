ghost use Rattle.std.specs.Prelude.{◌≡◌, ◌+◌, ◌<◌, map, length};
ghost use Rattle.il_core.specs.Statement.{placed};
ghost use Rattle.il_types.specs.Counted.{AreCounted};
ghost use Rattle.il_built.specs.Span.{IsOpening, AreStatementsOf};

use il_core::Stmt;
use il_types::{Counts, counts_before};

/// The statements of a procedure.
#[derive(Clone, Copy)]
pub struct Span {
    /// The number of the procedure, from 1 on.
    pub owner: usize,
    /// The number of its first statement, which stands behind its PROC.
    pub from: usize,
    /// The number behind its last statement: that of the next PROC plus 1, or the length of the text.
    pub to: usize,
}

/// The number behind the last statement of the procedure numbered `owner`, whose PROC is statement `at`.
fn end_of(counts: &[Counts], stmts: &[Stmt], owner: usize, at: usize) -> usize
    requires counted { AreCounted (map placed stmts.now) counts.now }
    requires within { at < length stmts.now }
    requires opening { IsOpening (map placed stmts.now) owner at }
    ensures { AreStatementsOf (map placed stmts.now) owner (at + 1) result }
{
    for i in at + 1..stmts.len() {
        if counts_before(counts, stmts, i).procedures != owner {
            return i;
        }
    }
    stmts.len()
}

/// The statements of the procedure numbered `owner`, whose PROC is statement `at`. Linear in the procedure.
pub fn span_of(counts: &[Counts], stmts: &[Stmt], owner: usize, at: usize) -> Span
    requires counted { AreCounted (map placed stmts.now) counts.now }
    requires within { at < length stmts.now }
    requires opening { IsOpening (map placed stmts.now) owner at }
    ensures owner { result.owner ≡ owner }
    ensures statements { AreStatementsOf (map placed stmts.now) result.owner result.from result.to }
{
    let from = at + 1;
    let to = end_of(counts, stmts, owner, at);
    Span { owner, from, to }
}
