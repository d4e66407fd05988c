//! What is explored of a region, and what is asked of it.

use control_flow::LoopInfo;
use il_core::CheckedProc;
use std::alloc::Global;
use test_graph::TestGraph;

/// What is asked of a region.
#[derive(Clone, Copy, Drop)]
pub enum Query {
    /// The rows of its paths that are not plainly refuted.
    Table,
    /// The rows of all its long paths.
    LongRows,
    /// Its long paths that stop badly.
    Hazards,
}

impl Query {
    ghost use Rattle.std.specs.Prelude.{◌≡◌};
    ghost use Rattle.semantic_tables.specs.Walk as walk;

    /// Whether the paths go on through the leading assertions of the head that they meet, and the refuted ones stand too.
    pub fn is_long(self) -> bool
        ensures { result ≡ walk.is_long self }
    {
        match self {
            Query::Table => false,
            Query::LongRows | Query::Hazards => true,
        }
    }

    /// Whether hazards are asked for, and no rows.
    pub fn is_hazards(self) -> bool
        ensures { result ≡ walk.is_hazards self }
    {
        match self {
            Query::Table | Query::LongRows => false,
            Query::Hazards => true,
        }
    }
}

/// The exploration of the tree of decisions of a region (symbolic execution).
#[derive(Clone, Copy, Drop)]
pub struct Exploration<'a> {
    /// Where memory comes from.
    pub alloc: Global,
    /// The procedure.
    pub proc: &'a CheckedProc,
    /// Its lines as a graph of tests.
    pub graph: &'a TestGraph,
    /// Its loops.
    pub loops: &'a [LoopInfo],
    /// The first line of the region.
    pub line: usize,
    /// What is asked of it.
    pub query: Query,
}
