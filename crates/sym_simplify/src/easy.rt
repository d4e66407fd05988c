//! Easy literals: those that bound one place, or the difference of two.
ghost use Rattle.std.specs.Prelude.{◌≡◌, neg_ℤ};
ghost use Rattle.std.specs.Ordering.{int_eq};
ghost use Rattle.std.specs.Option.{option_map};
ghost use Rattle.sym_simplify.specs.Held.{form_of, factor_of};
ghost use Rattle.sym_simplify.specs.Literal.{literal_form_of};
ghost use Rattle.sym_simplify.specs.Easy.{is_easy, place_in, single, double_of, multiple_of};

use crate::{Atom, LitForm, Normal, Part};

/// A place, or the difference of two, times a number.
#[derive(Debug, Clone, Copy, PartialEq, Eq)]
pub struct Multiple {
    /// The number.
    pub coefficient: i128,
    /// The place.
    pub left: usize,
    /// The place that is taken from it.
    pub right: Option<usize>,
}

/// The place that an atom is.
fn place_of(atom: &Atom) -> Option<usize>
    ensures { result ≡ place_in (factor_of atom.now) }
{
    match atom {
        Atom::Var(place) => Some(*place),
        Atom::Mul(_, _) | Atom::Div(_, _) | Atom::Mod(_, _) => None,
    }
}

/// Whether the second number is the first one negated.
fn are_opposite(first: i128, second: i128) -> bool
    ensures { result ≡ int_eq second (neg_ℤ first) }
{
    first.checked_neg() == Some(second)
}

/// A place as often as a part says.
fn single_in(only: &Part) -> Option<Multiple>
    ensures { result ≡ option_map (single only.now.coefficient) (place_in (factor_of only.now.atom)) }
{
    place_of(&only.atom).map(|left| Multiple {
        coefficient: only.coefficient,
        left,
        right: None,
    })
}

/// The difference of the places of two parts with opposite coefficients.
fn double_in(first: &Part, second: &Part) -> Option<Multiple>
    ensures { result ≡ double_of first.now.coefficient (factor_of first.now.atom) second.now.coefficient (factor_of second.now.atom) }
{
    if !are_opposite(first.coefficient, second.coefficient) {
        return None;
    }
    match (place_of(&first.atom), place_of(&second.atom)) {
        (Some(left), Some(right)) => Some(Multiple {
            coefficient: first.coefficient,
            left,
            right: Some(right),
        }),
        _ => None,
    }
}

/// The parts of a normal term where they are one place, or two places with opposite coefficients; `None` exactly where
/// they are not.
pub fn multiple_in(sum: &Normal) -> Option<Multiple>
    ensures { result ≡ multiple_of (form_of sum.now) }
{
    match sum.parts.as_slice() {
        [only] => single_in(only),
        [first, second] => double_in(first, second),
        _ => None,
    }
}

/// Whether a literal is easy: it always or never holds, or it compares one place, or the difference of two, times a
/// number.
pub fn is_easy(literal: &LitForm) -> bool
    ensures { result ≡ is_easy (literal_form_of literal.now) }
{
    match literal {
        LitForm::Always | LitForm::Never => true,
        LitForm::Keep(kept) => multiple_in(&kept.sum).is_some(),
    }
}
