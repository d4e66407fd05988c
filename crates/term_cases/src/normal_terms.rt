//! Normal terms, literals and linear terms.
ghost use Rattle.std.specs.Prelude.{◌≡◌, ◌<◌, ◌≤◌, ◌^◌, IsTrue, IfSome};
ghost use Rattle.sym_terms.specs.Tree.{tree_of};
ghost use Rattle.sym_terms.specs.Measure.{weight, depth};

use crate::trees::{plus, times};
use il_core::{NoMemory, Relation};
use std::alloc::Global;
use std::process::Abort;
use std::test::Fail;
use sym_simplify::{Atom, FormId, Forms, LinearPart, LitForm, Normal, linear, norm, norm_literal};
use sym_terms::{Literal, Term};

fn over(alloc: Global, a: Term, b: Term) -> Result<Term, NoMemory> {
    Ok(Term::Div(Box::new(alloc, a)?, Box::new(alloc, b)?))
}

fn minus(alloc: Global, a: Term, b: Term) -> Result<Term, NoMemory> {
    plus(alloc, a, times(alloc, Term::Num(-1), b)?)
}

/// `(x + 1) * 2 - x - x`, which is 2.
fn two(alloc: Global) -> Result<Term, NoMemory> {
    let next = plus(alloc, Term::Var(0), Term::Num(1))?;
    let twice = times(alloc, next, Term::Num(2))?;
    minus(alloc, minus(alloc, twice, Term::Var(0))?, Term::Var(0))
}

/// `(a DIV b) * b`, which is no shorter.
fn uncancelled(alloc: Global) -> Result<Term, NoMemory> {
    times(
        alloc,
        over(alloc, Term::Var(0), Term::Var(1))?,
        Term::Var(1),
    )
}

fn weight_of(term: &Term) -> Option<u128>
    ensures { IfSome result (λ w. w ≡ weight (tree_of term.now)) }
{
    match term {
        Term::Num(number) => Some(number.unsigned_abs().max(1)),
        Term::Var(_) => Some(1),
        Term::Mul(a, b) => weight_of(a)?.checked_mul(weight_of(b)?),
        Term::Add(a, b) | Term::Div(a, b) | Term::Mod(a, b) => {
            weight_of(a)?.checked_add(weight_of(b)?)
        }
    }
}

fn is_flat(term: &Term, levels: u32) -> bool
    ensures { IsTrue result → depth (tree_of term.now) ≤ levels }
{
    if levels == 0 {
        return false;
    }
    match term {
        Term::Num(_) | Term::Var(_) => true,
        Term::Add(a, b) | Term::Mul(a, b) | Term::Div(a, b) | Term::Mod(a, b) => {
            is_flat(a, levels - 1) && is_flat(b, levels - 1)
        }
    }
}

fn is_light(term: &Term) -> bool
    ensures weight { IsTrue result → weight (tree_of term.now) < 2 ^ 99 }
    ensures depth { IsTrue result → depth (tree_of term.now) ≤ 1000 }
{
    match weight_of(term) {
        Some(weight) => weight < 1 << 99 && is_flat(term, 1000),
        None => false,
    }
}

fn number_in(forms: &mut Forms, term: &Term) -> Result<Option<FormId>, NoMemory> {
    if !is_light(term) {
        return Ok(None);
    }
    let id = forms.put_term(term)?;
    Ok(Some(forms.norm(id)?))
}

fn is_place(normal: &Normal, place: usize) -> bool {
    match normal.parts.get(0) {
        Some(part) => match &part.atom {
            Atom::Var(other) => normal.constant == 0 && part.coefficient == 1 && *other == place,
            Atom::Mul(_, _) | Atom::Div(_, _) | Atom::Mod(_, _) => false,
        },
        None => false,
    }
}

/// `3 * (x + 2)`.
fn multiple(alloc: Global) -> Result<Term, NoMemory> {
    let sum = plus(alloc, Term::Var(3), Term::Num(2))?;
    times(alloc, Term::Num(3), sum)
}

/// Whether the normal term of a light term has this constant and so many parts.
fn has_parts(alloc: Global, term: &Term, constant: i128, parts: usize) -> Result<bool, Fail> {
    if !is_light(term) {
        return Err(Fail::from("heavy"));
    }
    let normal = norm(alloc, term)?;
    Ok(normal.constant == constant && normal.parts.len() == parts)
}

#[test]
fn sums_cancel_and_quotients_do_not(rt: HostRuntime) -> Result<(), Fail> {
    let sum = two(rt.alloc())?;
    assert!(rt; has_parts(rt.alloc(), &sum, 2, 0)?, "a sum that cancels");
    let product = uncancelled(rt.alloc())?;
    assert!(rt;
        has_parts(rt.alloc(), &product, 0, 1)?,
        "a quotient times its divisor"
    );
    let product = multiple(rt.alloc())?;
    assert!(rt; has_parts(rt.alloc(), &product, 6, 1)?, "a multiple");
    Ok(())
}

#[test]
fn equal_normal_terms_have_one_number(rt: HostRuntime) -> Result<(), Fail> {
    let alloc = rt.alloc();
    let mut forms = Forms::new(alloc)?;
    let two_by_name = number_in(&mut forms, &Term::Num(2))?;
    let two_by_sum = number_in(&mut forms, &two(alloc)?)?;
    assert_eq!(rt; two_by_sum, two_by_name);
    let product = uncancelled(alloc)?;
    assert!(rt; is_light(&product));
    let normal = norm(alloc, &product)?;
    let sides = match normal.parts.get(0) {
        Some(part) => match &part.atom {
            Atom::Mul(left, right) => part.coefficient == 1
                && is_place(left, 1)
                && !is_place(right, 1),
            Atom::Var(_) | Atom::Div(_, _) | Atom::Mod(_, _) => false,
        },
        None => false,
    };
    assert!(rt; sides, "the place first, then the quotient");
    Ok(())
}

/// `x + 3 < 2 * x`.
fn growing(alloc: Global) -> Result<Literal, NoMemory> {
    let left = plus(alloc, Term::Var(0), Term::Num(3))?;
    let right = times(alloc, Term::Num(2), Term::Var(0))?;
    Ok(Literal {
        left,
        relation: Relation::Lt,
        right,
    })
}

#[test]
fn a_literal_keeps_one_side(rt: HostRuntime) -> Result<(), Fail> {
    let literal = growing(rt.alloc())?;
    assert!(rt; is_light(&literal.left) && is_light(&literal.right));
    let kept = match norm_literal(rt.alloc(), &literal)? {
        LitForm::Keep(kept) => is_place(&kept.sum, 0)
            && kept.relation == Relation::Gt
            && kept.bound == 3,
        LitForm::Always | LitForm::Never => false,
    };
    assert!(rt; kept, "x + 3 < 2 * x is x > 3");
    Ok(())
}

/// `1 + x - y`.
fn apart(alloc: Global) -> Result<Term, NoMemory> {
    minus(
        alloc,
        plus(alloc, Term::Num(1), Term::Var(0))?,
        Term::Var(1),
    )
}

#[test]
fn a_product_is_not_linear(rt: HostRuntime) -> Result<(), Fail> {
    let term = apart(rt.alloc())?;
    assert!(rt; is_light(&term));
    let places = match linear(rt.alloc(), &term)? {
        Some(found) => {
            let second = LinearPart {
                coefficient: -1,
                place: 1,
            };
            found.constant == 1 && found.parts.get(1).copied() == Some(second)
        }
        None => false,
    };
    assert!(rt; places, "1 + x - y");
    let product = uncancelled(rt.alloc())?;
    assert!(rt; is_light(&product));
    assert!(rt; linear(rt.alloc(), &product)?.is_none());
    Ok(())
}
