//! Substitution, in trees and in a pool, and capped measures.
ghost use Rattle.std.specs.Prelude.{IsTrue, All};
ghost use Rattle.sym_terms.specs.Tree.{tree_of};
ghost use Rattle.sym_terms.specs.Substitution.{HasPlacesBelow};
ghost use Rattle.sym_terms.specs.Measure.{IsCapped};

use crate::trees::{plus, times};
use il_core::NoMemory;
use std::alloc::Global;
use std::process::Abort;
use std::test::Fail;
use sym_terms::{
    DEPTH_CAP, Env, NODE_CAP, Pool, Term, TermId, TermMeasure, TermNode, WEIGHT_CAP, measure, subst,
};

fn has_places_below(term: &Term, count: usize) -> bool
    ensures { IsTrue result → HasPlacesBelow count (tree_of term.now) }
{
    match term {
        Term::Num(_) => true,
        Term::Var(place) => *place < count,
        Term::Add(a, b) => has_places_below(a, count) && has_places_below(b, count),
        Term::Mul(a, b) => has_places_below(a, count) && has_places_below(b, count),
        Term::Div(a, b) => has_places_below(a, count) && has_places_below(b, count),
        Term::Mod(a, b) => has_places_below(a, count) && has_places_below(b, count),
    }
}

fn is_capped(each: &TermMeasure) -> bool
    ensures { IsTrue result → IsCapped each.now }
{
    let nodes = 1 <= each.nodes && each.nodes <= NODE_CAP;
    let weight = 1 <= each.weight && each.weight <= WEIGHT_CAP;
    let depth = 1 <= each.depth && each.depth <= DEPTH_CAP;
    nodes && weight && depth
}

fn are_capped(env: &[TermMeasure]) -> bool
    ensures { IsTrue result → All IsCapped env.now }
{
    env.iter().all(|each| is_capped(each))
}

fn size(nodes: u64, weight: u128, depth: u32) -> TermMeasure {
    TermMeasure {
        nodes,
        weight,
        depth,
    }
}

/// The number of a term of one place with `env` in its place; `None` where it has other places.
#[tactic(auto, using(sym_terms::proofs::Memos::substituting_one))]
fn replaced_in(pool: &mut Pool, term: &Term, env: &Term) -> Result<Option<TermId>, NoMemory> {
    let id = pool.put_term(term)?;
    if !has_places_below(term, 1) {
        return Ok(None);
    }
    let place = pool.put_term(env)?;
    Ok(Some(pool.subst(id, &[place])?))
}

#[test]
fn a_term_that_is_put_twice_is_kept_once(rt: HostRuntime) -> Result<(), Fail> {
    let mut pool = Pool::new(rt.alloc())?;
    let term = plus(rt.alloc(), Term::Var(0), Term::Num(1))?;
    let first = pool.put_term(&term)?;
    let second = pool.put_term(&term)?;
    assert_eq!(rt; first, second);
    assert_eq!(rt; pool.len(), 3);
    assert_eq!(rt; pool.get(TermId { index: 0 }), Some(TermNode::Var(0)));
    assert_eq!(rt; pool.get(TermId { index: 3 }), None);
    Ok(())
}

#[test]
fn measures_stop_at_their_caps(rt: HostRuntime) -> Result<(), Fail> {
    let half = 1 << 50;
    let cases: [(&str, bool, TermMeasure, TermMeasure); 8] = [
        ("one node each", false, size(1, 1, 1), size(3, 2, 2)),
        (
            "below the cap of nodes",
            false,
            size(1_048_575, 1, 9),
            size(2_097_151, 2, 10),
        ),
        (
            "at the cap of nodes",
            true,
            size(1_048_576, 1, 9),
            size(2_097_153, 1, 10),
        ),
        (
            "past the cap of nodes",
            false,
            size(2_097_153, 1, 9),
            size(2_097_153, 2, 10),
        ),
        (
            "below the cap of weight",
            true,
            size(1, half - 1, 1),
            size(3, (half - 1) * (half - 1), 2),
        ),
        (
            "at the cap of weight",
            true,
            size(1, half, 1),
            size(3, 1 << 100, 2),
        ),
        (
            "past the caps of weight and depth",
            true,
            size(1, 1 << 100, 1_001),
            size(3, 1 << 100, 1_001),
        ),
        (
            "at the cap of depth",
            false,
            size(1, 1 << 99, 1_000),
            size(3, 1 << 100, 1_001),
        ),
    ];
    let sum = plus(rt.alloc(), Term::Var(0), Term::Var(0))?;
    let product = times(rt.alloc(), Term::Var(0), Term::Var(0))?;
    for (name, is_product, each, want) in cases {
        let term = if is_product { &product } else { &sum };
        let env = [each];
        assert!(rt; are_capped(&env), "{name}");
        assert!(rt; has_places_below(term, 1), "{name}");
        assert_eq!(rt; measure(term, &env), want, "{name}");
    }
    Ok(())
}

/// The number of the tree in which `env` stands for the place of a term; `None` where it has other places.
fn replaced_apart(
    alloc: Global,
    pool: &mut Pool,
    term: &Term,
    env: &Term,
) -> Result<Option<TermId>, NoMemory> {
    if !has_places_below(term, 1) {
        return Ok(None);
    }
    let mut places = Env::start(alloc, 1)?;
    places.set(0, env.copied(alloc)?);
    let replaced = subst(alloc, term, &places)?;
    Ok(Some(pool.put_term(&replaced)?))
}

#[test]
fn substitution_in_a_pool_is_that_of_trees(rt: HostRuntime) -> Result<(), Fail> {
    let mut pool = Pool::new(rt.alloc())?;
    let product = times(rt.alloc(), Term::Var(0), Term::Var(0))?;
    let next = plus(rt.alloc(), Term::Var(0), Term::Num(1))?;
    let want = replaced_apart(rt.alloc(), &mut pool, &product, &next)?;
    assert!(rt; want.is_some());
    assert!(rt; replaced_in(&mut pool, &product, &next)? == want);
    assert!(rt; pool.len() == 5);
    Ok(())
}
