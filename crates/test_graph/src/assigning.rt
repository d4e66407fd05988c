//! The nodes of an assignment.
ghost use Rattle.std.specs.Prelude.{◌≡◌, ℕ, ◌<◌, ◌+◌, pos, List, length, slice_get, Some, None, IfOk, OnSome};
ghost use Rattle.std.specs.Option.{option_copied};
ghost use Rattle.il_core.specs.Expression.{Expression, expression_of};
ghost use Rattle.il_core.specs.Expression as expression;
ghost use Rattle.il_core.specs.Bounds.{IsNarrow, bounds_of};
ghost use Rattle.line_machine.specs.Static.{bounds_in};
ghost use Rattle.sym_terms.specs.Tree.{tree_of};
ghost use Rattle.sym_terms.specs.Tree as tree;
ghost use Rattle.test_graph.specs.Term as spec;
ghost use Rattle.test_graph.specs.Decision.{Decision, done, halts, goes_to, sets, at_least, at_most, ranged, whole_given, bit_given, flag_given, given_to};
ghost use Rattle.test_graph.specs.Standing.{Grows, Fall, Stands, AreOwn};

use crate::TestNode;
use crate::lowering::{lower_condition, lower_divisors, put_assign, put_stop, put_test};
use crate::term::{fitted_term, term_of};
use il_core::{Expr, Halt, NoMemory, Place, Relation};
use line_machine::{StaticBounds, static_bounds};
use std::alloc::Global;
use sym_terms::Term;

/// Adds the assignment of a term at line `pc`, before the next line.
#[tactic(auto, using(crate::proofs::StandingLines::assigning))]
fn put_set(
    nodes: &mut Vec<TestNode>,
    pc: usize,
    place: usize,
    term: Term,
) -> Result<usize, NoMemory>
    requires falls { Fall nodes.old.items }
    requires next { pc + 1 < length nodes.old.items }
    ensures within { IfOk result (λ id. id < length nodes.new.items) }
    ensures grows { Grows nodes.old.items nodes.new.items }
    ensures falls { Fall nodes.new.items }
    ensures stands { IfOk result (λ id. (entries : List ℕ) → slice_get entries (pc + 1) ≡ Some (pc + 1) → Stands entries nodes.new.items id (sets pc place (tree_of term))) }
{
    put_assign(nodes, place, term, pc + 1)
}

/// Adds the test that a value is not below the place's range, where its static bounds reach below it.
#[tactic(auto, using(crate::proofs::StandingLines::assigning))]
fn lower_least(
    alloc: Global,
    nodes: &mut Vec<TestNode>,
    place: &Place,
    bounds: StaticBounds,
    expr: &Expr,
    rest: usize,
    fault: usize,
) -> Result<usize, NoMemory>
    requires falls { Fall nodes.old.items }
    requires rest { rest < length nodes.old.items }
    requires fault { fault < length nodes.old.items }
    ensures within { IfOk result (λ id. id < length nodes.new.items) }
    ensures grows { Grows nodes.old.items nodes.new.items }
    ensures falls { Fall nodes.new.items }
    ensures stands { IfOk result (λ id. (entries : List ℕ) (x z : Decision) → Stands entries nodes.old.items rest x → Stands entries nodes.old.items fault z → Stands entries nodes.new.items id (at_least place.now (bounds_in bounds) (spec.term_of (expression_of expr.now)) x z)) }
{
    if bounds.low < i128::from(place.least) {
        let left = term_of(alloc, expr)?;
        let right = Term::Num(i128::from(place.least));
        put_test(nodes, left, Relation::Ge, right, rest, fault)
    } else {
        Ok(rest)
    }
}

/// Adds the test that a value is not above the place's range, where its static bounds reach above it.
#[tactic(auto, using(crate::proofs::StandingLines::assigning))]
fn lower_greatest(
    alloc: Global,
    nodes: &mut Vec<TestNode>,
    place: &Place,
    bounds: StaticBounds,
    expr: &Expr,
    rest: usize,
    fault: usize,
) -> Result<usize, NoMemory>
    requires falls { Fall nodes.old.items }
    requires rest { rest < length nodes.old.items }
    requires fault { fault < length nodes.old.items }
    ensures within { IfOk result (λ id. id < length nodes.new.items) }
    ensures grows { Grows nodes.old.items nodes.new.items }
    ensures falls { Fall nodes.new.items }
    ensures stands { IfOk result (λ id. (entries : List ℕ) (x z : Decision) → Stands entries nodes.old.items rest x → Stands entries nodes.old.items fault z → Stands entries nodes.new.items id (at_most place.now (bounds_in bounds) (spec.term_of (expression_of expr.now)) x z)) }
{
    if i128::from(place.greatest) < bounds.high {
        let left = term_of(alloc, expr)?;
        let right = Term::Num(i128::from(place.greatest));
        put_test(nodes, left, Relation::Le, right, rest, fault)
    } else {
        Ok(rest)
    }
}

/// Adds the tests on the range of a value, and its assignment. The static bounds are those of the expression.
#[tactic(auto, using(crate::proofs::StandingLines::assigning))]
fn lower_ranged(
    alloc: Global,
    nodes: &mut Vec<TestNode>,
    pc: usize,
    index: usize,
    place: &Place,
    bounds: StaticBounds,
    expr: &Expr,
) -> Result<usize, NoMemory>
    requires falls { Fall nodes.old.items }
    requires next { pc + 1 < length nodes.old.items }
    ensures within { IfOk result (λ id. id < length nodes.new.items) }
    ensures grows { Grows nodes.old.items nodes.new.items }
    ensures falls { Fall nodes.new.items }
    ensures stands { IfOk result (λ id. (entries : List ℕ) → slice_get entries (pc + 1) ≡ Some (pc + 1) → Stands entries nodes.new.items id (ranged pc index place.now (bounds_in bounds) (spec.term_of (expression_of expr.now)))) }
{
    let term = term_of(alloc, expr)?;
    if place.wrap {
        let fitted = fitted_term(alloc, place, bounds, term)?;
        return put_set(nodes, pc, index, fitted);
    }
    let fault = put_stop(nodes, Halt::Range(pc))?;
    let set = put_set(nodes, pc, index, term)?;
    let greatest = lower_greatest(alloc, nodes, place, bounds, expr, set, fault)?;
    lower_least(alloc, nodes, place, bounds, expr, greatest, fault)
}

/// Adds the decisions of an assignment of a whole number, and the assignment.
#[tactic(auto, using(crate::proofs::StandingLines::assigning))]
fn lower_whole(
    alloc: Global,
    nodes: &mut Vec<TestNode>,
    places: &[Place],
    pc: usize,
    index: usize,
    place: &Place,
    expr: &Expr,
) -> Result<usize, NoMemory>
    requires falls { Fall nodes.old.items }
    requires next { pc + 1 < length nodes.old.items }
    requires narrow { IsNarrow places.now (expression_of expr.now) }
    ensures within { IfOk result (λ id. id < length nodes.new.items) }
    ensures grows { Grows nodes.old.items nodes.new.items }
    ensures falls { Fall nodes.new.items }
    ensures stands { IfOk result (λ id. (entries : List ℕ) → slice_get entries (pc + 1) ≡ Some (pc + 1) → Stands entries nodes.new.items id (whole_given places.now pc index place.now (expression_of expr.now))) }
{
    let bounds = static_bounds(places, expr);
    let rest = lower_ranged(alloc, nodes, pc, index, place, bounds, expr)?;
    let fault = put_stop(nodes, Halt::DivZero(pc))?;
    lower_divisors(alloc, nodes, places, expr, rest, fault)
}

/// Adds the decisions of a condition, and the assignments of 1 and of 0.
#[tactic(auto, using(crate::proofs::StandingLines::assigning))]
fn lower_bit(
    alloc: Global,
    nodes: &mut Vec<TestNode>,
    places: &[Place],
    pc: usize,
    index: usize,
    expr: &Expr,
) -> Result<usize, NoMemory>
    requires falls { Fall nodes.old.items }
    requires next { pc + 1 < length nodes.old.items }
    requires narrow { IsNarrow places.now (expression_of expr.now) }
    ensures within { IfOk result (λ id. id < length nodes.new.items) }
    ensures grows { Grows nodes.old.items nodes.new.items }
    ensures falls { Fall nodes.new.items }
    ensures stands { IfOk result (λ id. (entries : List ℕ) → slice_get entries (pc + 1) ≡ Some (pc + 1) → Stands entries nodes.new.items id (bit_given places.now pc index (expression_of expr.now))) }
{
    let on = put_set(nodes, pc, index, Term::Num(1))?;
    let off = put_set(nodes, pc, index, Term::Num(0))?;
    let fault = put_stop(nodes, Halt::DivZero(pc))?;
    lower_condition(alloc, nodes, places, expr, on, off, fault)
}

/// Adds what an assignment of a truth value decides and assigns: a single variable is copied.
#[tactic(auto, using(crate::proofs::StandingLines::assigning))]
fn lower_flag(
    alloc: Global,
    nodes: &mut Vec<TestNode>,
    places: &[Place],
    pc: usize,
    index: usize,
    expr: &Expr,
) -> Result<usize, NoMemory>
    requires falls { Fall nodes.old.items }
    requires next { pc + 1 < length nodes.old.items }
    requires narrow { IsNarrow places.now (expression_of expr.now) }
    ensures within { IfOk result (λ id. id < length nodes.new.items) }
    ensures grows { Grows nodes.old.items nodes.new.items }
    ensures falls { Fall nodes.new.items }
    ensures stands { IfOk result (λ id. (entries : List ℕ) → slice_get entries (pc + 1) ≡ Some (pc + 1) → Stands entries nodes.new.items id (flag_given places.now pc index (expression_of expr.now))) }
{
    match expr {
        Expr::Flag(source) => put_set(nodes, pc, index, Term::Var(*source)),
        Expr::Num(_)
        | Expr::Var(_)
        | Expr::Truth(_)
        | Expr::Neg(_)
        | Expr::Not(_)
        | Expr::Binary(_, _, _) => lower_bit(alloc, nodes, places, pc, index, expr),
    }
}

/// The place of this number.
pub(crate) fn place_at(places: &[Place], index: usize) -> Option<&Place>
    ensures value { option_copied result ≡ slice_get places.now index }
    ensures within { OnSome result (index < length places.now) }
{
    places.get(index)
}

/// Adds what an assignment decides and assigns.
#[tactic(auto, using(crate::proofs::StandingLines::assigning))]
pub(crate) fn lower_assignment(
    alloc: Global,
    nodes: &mut Vec<TestNode>,
    places: &[Place],
    pc: usize,
    index: usize,
    expr: &Expr,
) -> Result<usize, NoMemory>
    requires falls { Fall nodes.old.items }
    requires next { pc + 1 < length nodes.old.items }
    requires narrow { IsNarrow places.now (expression_of expr.now) }
    ensures within { IfOk result (λ id. id < length nodes.new.items) }
    ensures grows { Grows nodes.old.items nodes.new.items }
    ensures falls { Fall nodes.new.items }
    ensures stands { IfOk result (λ id. (entries : List ℕ) → slice_get entries (pc + 1) ≡ Some (pc + 1) → Stands entries nodes.new.items id (given_to places.now pc index (expression_of expr.now) (slice_get places.now index))) }
{
    match place_at(places, index) {
        None => put_stop(nodes, Halt::Range(pc)),
        Some(place) => {
            if place.flag {
                lower_flag(alloc, nodes, places, pc, index, expr)
            } else {
                lower_whole(alloc, nodes, places, pc, index, place, expr)
            }
        }
    }
}
