//! Whether two paths from a line to marked lines share that line alone.
ghost use Rattle.std.specs.Prelude.{◌≡◌, ◌<◌, ◌↔◌, IsTrue, IfOk, length};
ghost use Rattle.flow_graph.specs.Search.{IsMarked, StayBelow};
ghost use Rattle.disjoint_paths.specs.FirstPath.{IsNext};
ghost use Rattle.disjoint_paths.specs.Pair.{HasPair};

use disjoint_paths::pair_from;
use il_core::{List, NoMemory};
use std::alloc::Global;

/// Whether two paths over the rows, from a line to marked lines, share that line alone.
pub fn has_pair(
    alloc: Global,
    rows: &[List<usize>],
    line: usize,
    marks: &[bool],
) -> Result<bool, NoMemory>
    requires rows { StayBelow (length rows.now) rows.now }
    requires simple { IsNext rows.now line line → ⊥ }
    requires line { line < length rows.now }
    requires size { length marks.now ≡ length rows.now }
    ensures { IfOk result (λ found. IsTrue found ↔ HasPair (IsNext rows.now) (IsMarked marks.now) line) }
{
    let pair = pair_from(alloc, rows, line, marks)?;
    Ok(pair.is_some())
}
