//! The steps of a plan that its answer uses, as definitions.
ghost use Rattle.std.specs.Prelude.{◌≡◌, ℕ, ◌+◌, ◌-◌, ◌^◌, ◌<◌, ◌≤◌, ◌∷◌, ◌++◌, [], length, take, replicate, slice_get, slice_index, false, true, IfOk, OnOk, Some};
ghost use Rattle.il_core.specs.LineGraph.{IsIn};
ghost use Rattle.flow_graph.specs.Search.{IsMarked};
ghost use Rattle.regular_algebra.specs.Words.{EachNamesLower};
ghost use Rattle.regular_algebra.specs.Answers.{IsNumberBelow};
ghost use Rattle.regular_algebra.specs.Run.{Names};
ghost use Rattle.path_expr.specs.Definitions.{rank, ref_of, def_of, whole_of, MarksUsed, AreRanks, AreDefinitions};
ghost use Rattle.path_expr.specs.Marks.{marked, marked_sides, marked_answer, CountFromOne, DefineMarked};

use crate::report::{Def, PathReport, Ref};
use il_core::{List, NoMemory};
use regular_algebra::Step;
use std::alloc::Global;

/// `count` marks, none of which is set.
fn no_marks(alloc: Global, count: usize) -> Result<Vec<bool>, NoMemory>
    ensures { IfOk result (λ v. v.items ≡ replicate count false) }
{
    Ok(vec![in alloc; false; count]?)
}

/// Marks a value, where it is that of a step; the first values are arcs.
fn mark(used: &mut [bool], first: usize, number: usize)
    requires { number < first + length used.old }
    ensures { used.new ≡ marked first number used.old }
{
    if number >= first {
        used[number - first] = true;
    }
}

/// Marks the values that a step names.
fn mark_sides(used: &mut [bool], first: usize, step: Step)
    requires { (v : ℕ) → Names step v → v < first + length used.old }
    ensures { used.new ≡ marked_sides first step used.old }
{
    match step {
        Step::Plus(left, right) | Step::Times(left, right) => {
            mark(used, first, left);
            mark(used, first, right);
        }
        Step::Star(around) => mark(used, first, around),
    }
}

/// Marks the value of an answer.
fn mark_answer(used: &mut [bool], first: usize, answer: Option<usize>)
    requires { IsNumberBelow (first + length used.old) answer }
    ensures { used.new ≡ marked_answer first answer used.old }
{
    if let Some(number) = answer {
        mark(used, first, number);
    }
}

/// Marks the steps that the answer uses: its own, and from the last step to the first those that a marked step names, as a
/// step names lower values only.
fn mark_used(used: &mut [bool], first: usize, steps: &[Step], answer: Option<usize>)
    requires none { used.old ≡ replicate (length steps.now) false }
    requires lower { EachNamesLower first steps.now }
    requires below { IsNumberBelow (first + length steps.now) answer }
    ensures { MarksUsed first steps.now answer used.new }
{
    mark_answer(used, first, answer);
    let mut k = steps.len();
    while k > 0 {
        k -= 1;
        if used[k] {
            mark_sides(used, first, steps[k]);
        }
    }
}

/// Which steps the answer uses, directly or through others.
fn used_steps(
    alloc: Global,
    first: usize,
    steps: &[Step],
    answer: Option<usize>,
) -> Result<Vec<bool>, NoMemory>
    requires lower { EachNamesLower first steps.now }
    requires below { IsNumberBelow (first + length steps.now) answer }
    ensures { IfOk result (λ used. MarksUsed first steps.now answer used.items) }
{
    let mut used = no_marks(alloc, steps.len())?;
    mark_used(used.as_mut_slice(), first, steps, answer);
    Ok(used)
}

/// For each step how many marked steps stand before it.
fn ranks_of(alloc: Global, used: &[bool]) -> Result<Vec<usize>, NoMemory>
    ensures exact { IfOk result (λ ranks. AreRanks used.now ranks.items) }
    ensures small { IfOk result (λ ranks. CountFromOne ranks.items) }
{
    let mut ranks = Vec::new(alloc);
    let mut before = 0;
    for is_used in used {
        ranks.push(before)?;
        if *is_used {
            before += 1;
        }
    }
    Ok(ranks)
}

/// A value as a reference: an arc by its number, a step by its definition.
fn ref_of(live: &[usize], ranks: &[usize], number: usize) -> Ref
    requires arcs { CountFromOne live.now }
    requires steps { CountFromOne ranks.now }
    requires within { number < length live.now + length ranks.now }
    ensures { result ≡ ref_of live.now ranks.now number }
{
    if number < live.len() {
        Ref::Arc(live[number] + 1)
    } else {
        Ref::Def(ranks[number - live.len()] + 1)
    }
}

/// A step as a definition.
fn def_of(live: &[usize], ranks: &[usize], step: Step) -> Def
    requires arcs { CountFromOne live.now }
    requires steps { CountFromOne ranks.now }
    requires within { (v : ℕ) → Names step v → v < length live.now + length ranks.now }
    ensures { result ≡ def_of (ref_of live.now ranks.now) step }
{
    match step {
        Step::Plus(left, right) => {
            Def::Sum(ref_of(live, ranks, left), ref_of(live, ranks, right))
        }
        Step::Times(left, right) => {
            Def::Product(ref_of(live, ranks, left), ref_of(live, ranks, right))
        }
        Step::Star(around) => Def::Star(ref_of(live, ranks, around)),
    }
}

/// An answer as a reference.
fn whole_of(live: &[usize], ranks: &[usize], answer: Option<usize>) -> Ref
    requires arcs { CountFromOne live.now }
    requires steps { CountFromOne ranks.now }
    requires within { IsNumberBelow (length live.now + length ranks.now) answer }
    ensures { result ≡ whole_of (ref_of live.now ranks.now) answer }
{
    match answer {
        None => Ref::Zero,
        Some(number) => ref_of(live, ranks, number),
    }
}

/// The marked steps as definitions, in their order.
fn defs_of(
    alloc: Global,
    live: &[usize],
    steps: &[Step],
    used: &[bool],
    ranks: &[usize],
) -> Result<List<Def>, NoMemory>
    requires arcs { CountFromOne live.now }
    requires numbers { CountFromOne ranks.now }
    requires lower { EachNamesLower (length live.now) steps.now }
    requires marks { length used.now ≡ length steps.now }
    requires ranks { AreRanks used.now ranks.now }
    ensures { IfOk result (λ defs. DefineMarked live.now steps.now used.now ranks.now (length steps.now) defs) }
{
    let mut defs = List::new(alloc);
    for (k, step) in steps.iter().enumerate() {
        if used[k] {
            defs.push(def_of(live, ranks, *step))?;
        }
    }
    Ok(defs)
}

/// The definitions of an answer, where the first values are the arcs with the numbers `live`.
pub fn definitions(
    alloc: Global,
    live: &[usize],
    steps: &[Step],
    answer: Option<usize>,
) -> Result<PathReport, NoMemory>
    requires arcs { CountFromOne live.now }
    requires lower { EachNamesLower (length live.now) steps.now }
    requires below { IsNumberBelow (length live.now + length steps.now) answer }
    ensures { IfOk result (λ p. AreDefinitions live.now steps.now answer p.defs p.whole) }
{
    let used = used_steps(alloc, live.len(), steps, answer)?;
    let ranks = ranks_of(alloc, used.as_slice())?;
    let defs = defs_of(alloc, live, steps, used.as_slice(), ranks.as_slice())?;
    let whole = whole_of(live, ranks.as_slice(), answer);
    Ok(PathReport { defs, whole })
}
