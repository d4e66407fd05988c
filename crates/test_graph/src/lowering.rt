//! The nodes of a line's decisions. They are added from the ends on, so that each names nodes that stand already.
ghost use Rattle.std.specs.Prelude.{◌≡◌, ℕ, ◌<◌, ◌≤◌, ◌+◌, pos, List, length, slice_get, Some, None, IfOk, IfSome};
ghost use Rattle.il_core.specs.Expression.{expression_of};
ghost use Rattle.il_core.specs.Bounds.{IsNarrow, bounds_of};
ghost use Rattle.sym_terms.specs.Tree.{tree_of};
ghost use Rattle.sym_terms.specs.Tree as tree;
ghost use Rattle.sym_terms.specs.Comparison.{comparison_of};
ghost use Rattle.line_machine.specs.Static.{bounds_in};
ghost use Rattle.test_graph.specs.Term as spec;
ghost use Rattle.test_graph.specs.Decision.{Decision, ask, done, halts, goes_to, sets, holds_zero, not_zero, guarded, divided, decided_on, at_least, at_most};
ghost use Rattle.test_graph.specs.Lowered.{NamesLower};
ghost use Rattle.test_graph.specs.Standing.{Grows, Fall, Stands};

use crate::TestNode;
use crate::term::term_of;
use il_core::{BinOp, Expr, Halt, NoMemory, Place, Relation};
use line_machine::{StaticBounds, static_bounds};
use std::alloc::Global;
use sym_terms::{Literal, Term};

/// Adds a node; its number is that of the nodes before it.
#[tactic(auto, using(crate::proofs::Standing::one_more))]
fn put(nodes: &mut Vec<TestNode>, node: TestNode) -> Result<usize, NoMemory>
    requires falls { Fall nodes.old.items }
    requires lower { NamesLower (length nodes.old.items) node }
    ensures there { IfOk result (λ id. slice_get nodes.new.items id ≡ Some node) }
    ensures within { IfOk result (λ id. id < length nodes.new.items) }
    ensures grows { Grows nodes.old.items nodes.new.items }
    ensures falls { Fall nodes.new.items }
{
    let id = nodes.len();
    nodes.push(node)?;
    Ok(id)
}

/// Adds a halt.
#[tactic(auto, using(crate::proofs::Standing::standing))]
pub(crate) fn put_stop(nodes: &mut Vec<TestNode>, halt: Halt) -> Result<usize, NoMemory>
    requires falls { Fall nodes.old.items }
    ensures within { IfOk result (λ id. id < length nodes.new.items) }
    ensures grows { Grows nodes.old.items nodes.new.items }
    ensures falls { Fall nodes.new.items }
    ensures stands { IfOk result (λ id. (entries : List ℕ) → Stands entries nodes.new.items id (halts halt)) }
{
    put(nodes, TestNode::Stop(halt))
}

/// Adds an assignment before a node.
#[tactic(auto, using(crate::proofs::Standing::standing))]
pub(crate) fn put_assign(
    nodes: &mut Vec<TestNode>,
    place: usize,
    term: Term,
    then: usize,
) -> Result<usize, NoMemory>
    requires falls { Fall nodes.old.items }
    requires then { then < length nodes.old.items }
    ensures within { IfOk result (λ id. id < length nodes.new.items) }
    ensures grows { Grows nodes.old.items nodes.new.items }
    ensures falls { Fall nodes.new.items }
    ensures stands { IfOk result (λ id. (entries : List ℕ) (next : _) → Stands entries nodes.old.items then (done None next) → Stands entries nodes.new.items id (done (Some (record { place = place; term = tree_of term })) next)) }
{
    put(nodes, TestNode::Assign(place, term, then))
}

/// Adds a test before two nodes.
#[tactic(auto, using(crate::proofs::Standing::standing))]
pub(crate) fn put_test(
    nodes: &mut Vec<TestNode>,
    left: Term,
    relation: Relation,
    right: Term,
    met: usize,
    unmet: usize,
) -> Result<usize, NoMemory>
    requires falls { Fall nodes.old.items }
    requires met { met < length nodes.old.items }
    requires unmet { unmet < length nodes.old.items }
    ensures within { IfOk result (λ id. id < length nodes.new.items) }
    ensures grows { Grows nodes.old.items nodes.new.items }
    ensures falls { Fall nodes.new.items }
    ensures stands { IfOk result (λ id. (entries : List ℕ) (x y : Decision) → Stands entries nodes.old.items met x → Stands entries nodes.old.items unmet y → Stands entries nodes.new.items id (ask (record { left = tree_of left; relation = relation; right = tree_of right }) x y)) }
{
    put(
        nodes,
        TestNode::Test(
            Literal {
                left,
                relation,
                right,
            },
            met,
            unmet,
        ),
    )
}

/// Whether 0 lies within the bounds.
pub(crate) fn holds_zero(bounds: StaticBounds) -> bool
    ensures { result ≡ holds_zero (bounds_in bounds) }
{
    bounds.low <= 0 && 0 <= bounds.high
}

/// Adds the test that a divisor is not 0, where its static bounds hold 0.
#[tactic(auto, using(crate::proofs::StandingParts::lowering))]
fn lower_divisor(
    alloc: Global,
    nodes: &mut Vec<TestNode>,
    places: &[Place],
    divisor: &Expr,
    rest: usize,
    fault: usize,
) -> Result<usize, NoMemory>
    requires falls { Fall nodes.old.items }
    requires narrow { IsNarrow places.now (expression_of divisor.now) }
    requires rest { rest < length nodes.old.items }
    requires fault { fault < length nodes.old.items }
    ensures within { IfOk result (λ id. id < length nodes.new.items) }
    ensures grows { Grows nodes.old.items nodes.new.items }
    ensures falls { Fall nodes.new.items }
    ensures stands { IfOk result (λ id. (entries : List ℕ) (x z : Decision) → Stands entries nodes.old.items rest x → Stands entries nodes.old.items fault z → Stands entries nodes.new.items id (not_zero places.now (expression_of divisor.now) x z)) }
{
    if holds_zero(static_bounds(places, divisor)) {
        let left = term_of(alloc, divisor)?;
        put_test(nodes, left, Relation::Ne, Term::Num(0), rest, fault)
    } else {
        Ok(rest)
    }
}

/// Adds the test of an operator behind both its sides.
#[tactic(auto, using(crate::proofs::StandingParts::lowering))]
fn lower_operator(
    alloc: Global,
    nodes: &mut Vec<TestNode>,
    places: &[Place],
    op: BinOp,
    right: &Expr,
    rest: usize,
    fault: usize,
) -> Result<usize, NoMemory>
    requires falls { Fall nodes.old.items }
    requires narrow { IsNarrow places.now (expression_of right.now) }
    requires rest { rest < length nodes.old.items }
    requires fault { fault < length nodes.old.items }
    ensures within { IfOk result (λ id. id < length nodes.new.items) }
    ensures grows { Grows nodes.old.items nodes.new.items }
    ensures falls { Fall nodes.new.items }
    ensures stands { IfOk result (λ id. (entries : List ℕ) (x z : Decision) → Stands entries nodes.old.items rest x → Stands entries nodes.old.items fault z → Stands entries nodes.new.items id (guarded places.now op (expression_of right.now) x z)) }
{
    match op {
        BinOp::Div => lower_divisor(alloc, nodes, places, right, rest, fault),
        BinOp::Mod => lower_divisor(alloc, nodes, places, right, rest, fault),
        BinOp::Add | BinOp::Sub | BinOp::Mul | BinOp::Compare(_) | BinOp::And | BinOp::Or => Ok(
            rest,
        ),
    }
}

/// Adds the tests of an expression's divisors before a node.
#[tactic(auto, using(crate::proofs::StandingParts::lowering))]
pub(crate) fn lower_divisors(
    alloc: Global,
    nodes: &mut Vec<TestNode>,
    places: &[Place],
    expr: &Expr,
    rest: usize,
    fault: usize,
) -> Result<usize, NoMemory>
    requires falls { Fall nodes.old.items }
    requires narrow { IsNarrow places.now (expression_of expr.now) }
    requires rest { rest < length nodes.old.items }
    requires fault { fault < length nodes.old.items }
    ensures within { IfOk result (λ id. id < length nodes.new.items) }
    ensures grows { Grows nodes.old.items nodes.new.items }
    ensures falls { Fall nodes.new.items }
    ensures stands { IfOk result (λ id. (entries : List ℕ) (x z : Decision) → Stands entries nodes.old.items rest x → Stands entries nodes.old.items fault z → Stands entries nodes.new.items id (divided places.now (expression_of expr.now) x z)) }
{
    match expr {
        Expr::Neg(inner) => lower_divisors(alloc, nodes, places, inner, rest, fault),
        Expr::Binary(op, left, right) => {
            let guard = lower_operator(alloc, nodes, places, *op, right, rest, fault)?;
            let second = lower_divisors(alloc, nodes, places, right, guard, fault)?;
            lower_divisors(alloc, nodes, places, left, second, fault)
        }
        Expr::Num(_) | Expr::Var(_) | Expr::Flag(_) | Expr::Truth(_) | Expr::Not(_) => Ok(rest),
    }
}

/// Adds the decisions of a comparison before two nodes.
#[tactic(auto, using(crate::proofs::StandingParts::lowering))]
fn lower_comparison(
    alloc: Global,
    nodes: &mut Vec<TestNode>,
    places: &[Place],
    relation: Relation,
    left: &Expr,
    right: &Expr,
    on: usize,
    off: usize,
    fault: usize,
) -> Result<usize, NoMemory>
    requires falls { Fall nodes.old.items }
    requires left { IsNarrow places.now (expression_of left.now) }
    requires right { IsNarrow places.now (expression_of right.now) }
    requires on { on < length nodes.old.items }
    requires off { off < length nodes.old.items }
    requires fault { fault < length nodes.old.items }
    ensures within { IfOk result (λ id. id < length nodes.new.items) }
    ensures grows { Grows nodes.old.items nodes.new.items }
    ensures falls { Fall nodes.new.items }
    ensures stands { IfOk result (λ id. (entries : List ℕ) (x y z : Decision) → Stands entries nodes.old.items on x → Stands entries nodes.old.items off y → Stands entries nodes.old.items fault z → Stands entries nodes.new.items id (divided places.now (expression_of left.now) (divided places.now (expression_of right.now) (ask (record { left = spec.term_of (expression_of left.now); relation = relation; right = spec.term_of (expression_of right.now) }) x y) z) z)) }
{
    let first = term_of(alloc, left)?;
    let second = term_of(alloc, right)?;
    let test = put_test(nodes, first, relation, second, on, off)?;
    let behind = lower_divisors(alloc, nodes, places, right, test, fault)?;
    lower_divisors(alloc, nodes, places, left, behind, fault)
}

/// Adds the decisions of a condition before the nodes at which it is true, false or divides by 0. Each part of it adds
/// its own nodes once, however many ways lead through it.
#[tactic(auto, using(crate::proofs::StandingParts::lowering))]
pub(crate) fn lower_condition(
    alloc: Global,
    nodes: &mut Vec<TestNode>,
    places: &[Place],
    expr: &Expr,
    on: usize,
    off: usize,
    fault: usize,
) -> Result<usize, NoMemory>
    requires falls { Fall nodes.old.items }
    requires narrow { IsNarrow places.now (expression_of expr.now) }
    requires on { on < length nodes.old.items }
    requires off { off < length nodes.old.items }
    requires fault { fault < length nodes.old.items }
    ensures within { IfOk result (λ id. id < length nodes.new.items) }
    ensures grows { Grows nodes.old.items nodes.new.items }
    ensures falls { Fall nodes.new.items }
    ensures stands { IfOk result (λ id. (entries : List ℕ) (x y z : Decision) → Stands entries nodes.old.items on x → Stands entries nodes.old.items off y → Stands entries nodes.old.items fault z → Stands entries nodes.new.items id (decided_on places.now (expression_of expr.now) x y z)) }
{
    match expr {
        Expr::Flag(place) => put_test(
            nodes,
            Term::Var(*place),
            Relation::Ge,
            Term::Num(1),
            on,
            off,
        ),
        Expr::Truth(true) => Ok(on),
        Expr::Truth(false) => Ok(off),
        Expr::Not(inner) => lower_condition(alloc, nodes, places, inner, off, on, fault),
        Expr::Binary(BinOp::Compare(relation), left, right) => lower_comparison(
            alloc, nodes, places, *relation, left, right, on, off, fault,
        ),
        Expr::Binary(BinOp::And, left, right) => {
            let second = lower_condition(alloc, nodes, places, right, on, off, fault)?;
            lower_condition(alloc, nodes, places, left, second, off, fault)
        }
        Expr::Binary(BinOp::Or, left, right) => {
            let second = lower_condition(alloc, nodes, places, right, on, off, fault)?;
            lower_condition(alloc, nodes, places, left, on, second, fault)
        }
        _ => Ok(fault),
    }
}
