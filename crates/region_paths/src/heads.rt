//! The loop of each line that is a head.
ghost use Rattle.std.specs.Prelude.{◌≡◌, ℕ, List, Option, All, IfOk, Some, None, length, slice_get};
ghost use Rattle.il_core.specs.Checked.{procedure_of, IsChecked};
ghost use Rattle.region_paths.specs.Walk.{IsPut, IsLoopOf, IsNone, AreLoopsOf};

use control_flow::LoopInfo;
use il_core::{CheckedProc, NoMemory};
use std::alloc::Global;

/// Puts the index of a loop at its head.
fn put_loop(heads: &mut [Option<usize>], head: usize, at: usize)
    ensures size { length heads.new ≡ length heads.old }
    ensures each { (line : ℕ) (o : Option ℕ) → slice_get heads.new line ≡ Some o → IsPut heads.old head at line o }
{
    if head < heads.len() {
        heads[head] = Some(at);
    }
}

/// Puts each loop at its head, the first last.
fn put_loops(heads: &mut [Option<usize>], loops: &[LoopInfo])
    requires none { All IsNone heads.old }
    ensures size { length heads.new ≡ length heads.old }
    ensures each { (line : ℕ) (o : Option ℕ) → slice_get heads.new line ≡ Some o → IsLoopOf loops.now line o }
{
    for at in (0..loops.len()).rev() {
        put_loop(heads, loops[at].head, at);
    }
}

/// For each line the index of the loop of which it is the head.
pub fn loops_of_lines(
    alloc: Global,
    proc: &CheckedProc,
    loops: &[LoopInfo],
) -> Result<Vec<Option<usize>>, NoMemory>
    ensures checked { IfOk result (λ _. IsChecked (procedure_of proc.now)) }
    ensures loops { IfOk result (λ heads. AreLoopsOf (procedure_of proc.now) loops.now heads.items) }
{
    let mut heads = vec![in alloc; None; proc.lines().len()]?;
    put_loops(&mut heads, loops);
    Ok(heads)
}

/// The loop of which a line is the head.
pub fn loop_at(heads: &[Option<usize>], line: usize) -> Option<usize>
    ensures { (o : Option ℕ) → slice_get heads.now line ≡ Some o → result ≡ o }
{
    match heads.get(line) {
        Some(at) => *at,
        None => None,
    }
}
