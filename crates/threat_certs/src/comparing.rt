//! The order of normal terms and of their atoms.
ghost use Rattle.std.specs.Prelude.{◌≡◌};
ghost use Rattle.std.specs.Ordering.{int_cmp, ordering_then};
ghost use Rattle.sym_simplify.specs.Held.{form_of, factor_of};
ghost use Rattle.sym_simplify.specs.Order.{form_cmp, factor_cmp};

use std::cmp::Ordering;
use sym_simplify::{Atom, Normal, Part};

/// How two normal terms compare.
#[cycle(comparing)]
fn compare(left: &Normal, right: &Normal) -> Ordering
    ensures { result ≡ form_cmp (form_of left.now) (form_of right.now) }
{
    let parts = left.parts.as_slice();
    let others = right.parts.as_slice();
    let mut at = 0;
    while at < parts.len() && at < others.len() {
        let part = &parts[at];
        let other = &others[at];
        match compare_parts(part, other) {
            Ordering::Less => return Ordering::Less,
            Ordering::Greater => return Ordering::Greater,
            Ordering::Equal => at += 1,
        }
    }
    if at < parts.len() {
        return Ordering::Greater;
    }
    if at < others.len() {
        return Ordering::Less;
    }
    left.constant.cmp(&right.constant)
}

/// How two parts compare: by their atoms, and then by their coefficients.
#[cycle(comparing)]
fn compare_parts(left: &Part, right: &Part) -> Ordering
    ensures { result ≡ ordering_then (factor_cmp (factor_of left.now.atom) (factor_of right.now.atom)) (int_cmp left.now.coefficient right.now.coefficient) }
{
    let atoms = compare_atoms(&left.atom, &right.atom);
    atoms.then(left.coefficient.cmp(&right.coefficient))
}

/// How two atoms compare: places, products, quotients, remainders; places by number, all others by the left side and then
/// by the right one.
#[cycle(comparing)]
pub fn compare_atoms(left: &Atom, right: &Atom) -> Ordering
    ensures { result ≡ factor_cmp (factor_of left.now) (factor_of right.now) }
{
    match left {
        Atom::Var(place) => match right {
            Atom::Var(other) => place.cmp(other),
            Atom::Mul(_, _) | Atom::Div(_, _) | Atom::Mod(_, _) => Ordering::Less,
        },
        Atom::Mul(a, b) => match right {
            Atom::Var(_) => Ordering::Greater,
            Atom::Mul(c, d) => match compare(a, c) {
                Ordering::Less => Ordering::Less,
                Ordering::Equal => compare(b, d),
                Ordering::Greater => Ordering::Greater,
            },
            Atom::Div(_, _) | Atom::Mod(_, _) => Ordering::Less,
        },
        Atom::Div(a, b) => match right {
            Atom::Var(_) | Atom::Mul(_, _) => Ordering::Greater,
            Atom::Div(c, d) => match compare(a, c) {
                Ordering::Less => Ordering::Less,
                Ordering::Equal => compare(b, d),
                Ordering::Greater => Ordering::Greater,
            },
            Atom::Mod(_, _) => Ordering::Less,
        },
        Atom::Mod(a, b) => match right {
            Atom::Var(_) | Atom::Mul(_, _) | Atom::Div(_, _) => Ordering::Greater,
            Atom::Mod(c, d) => match compare(a, c) {
                Ordering::Less => Ordering::Less,
                Ordering::Equal => compare(b, d),
                Ordering::Greater => Ordering::Greater,
            },
        },
    }
}
