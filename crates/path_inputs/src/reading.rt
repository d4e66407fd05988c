//! Easy literals as constraints on the differences of places.
ghost use Rattle.std.specs.Prelude.{◌≡◌, ◌≤◌, ◌<ℤ◌, ◌^◌, pos, unsigned_abs};
ghost use Rattle.sym_simplify.specs.Literal.{literal_form_of};
ghost use Rattle.sym_simplify.specs.Easy.{IsKept};
ghost use Rattle.path_inputs.specs.Bounding.{at_most, at_least, either_side, relation_reading, reading_of};

use difference::{Constraint, Split};
use il_core::Relation;
use sym_simplify::{LitForm, Multiple, multiple_in};

/// What a literal asks of the places.
#[derive(Clone, Copy)]
pub enum Reading {
    /// Nothing that a constraint on a difference says.
    Free,
    /// One constraint.
    One(Constraint),
    /// Both of two constraints.
    Two(Constraint, Constraint),
    /// One of two constraints.
    Either(Split),
}

/// The multiple is at most `bound`: the quotient, rounded down, bounds the places.
fn at_most(multiple: Multiple, bound: i128) -> Constraint
    requires above { pos 0 <ℤ multiple.coefficient }
    ensures { result ≡ at_most multiple bound }
{
    Constraint {
        left: Some(multiple.left),
        right: multiple.right,
        bound: bound.div_euclid(multiple.coefficient),
    }
}

/// The multiple is at least `bound`: its negation is at most the negated bound.
fn at_least(multiple: Multiple, bound: i128) -> Constraint
    requires above { pos 0 <ℤ multiple.coefficient }
    requires bound { unsigned_abs bound ≤ 2 ^ 101 }
    ensures { result ≡ at_least multiple bound }
{
    Constraint {
        left: multiple.right,
        right: Some(multiple.left),
        bound: (-bound).div_euclid(multiple.coefficient),
    }
}

/// The two sides of a disequality.
fn either_side(multiple: Multiple, bound: i128) -> Split
    requires above { pos 0 <ℤ multiple.coefficient }
    requires bound { unsigned_abs bound ≤ 2 ^ 100 }
    ensures { result ≡ either_side multiple bound }
{
    Split {
        low: at_most(multiple, bound - 1),
        high: at_least(multiple, bound + 1),
    }
}

/// What a relation asks of the places of a multiple.
fn relation_reading(multiple: Multiple, relation: Relation, bound: i128) -> Reading
    requires above { pos 0 <ℤ multiple.coefficient }
    requires bound { unsigned_abs bound ≤ 2 ^ 100 }
    ensures { result ≡ relation_reading multiple relation bound }
{
    match relation {
        Relation::Eq => Reading::Two(at_most(multiple, bound), at_least(multiple, bound)),
        Relation::Ne => Reading::Either(either_side(multiple, bound)),
        Relation::Lt => Reading::One(at_most(multiple, bound - 1)),
        Relation::Le => Reading::One(at_most(multiple, bound)),
        Relation::Gt => Reading::One(at_least(multiple, bound + 1)),
        Relation::Ge => Reading::One(at_least(multiple, bound)),
    }
}

/// What a literal asks of the places; a hard one asks nothing here.
pub fn read(literal: &LitForm) -> Reading
    requires { IsKept (literal_form_of literal.now) }
    ensures { result ≡ reading_of (literal_form_of literal.now) }
{
    match literal {
        LitForm::Always => Reading::Free,
        LitForm::Never => Reading::One(Constraint {
            left: None,
            right: None,
            bound: -1,
        }),
        LitForm::Keep(kept) => match multiple_in(&kept.sum) {
            Some(multiple) => relation_reading(multiple, kept.relation, kept.bound),
            None => Reading::Free,
        },
    }
}
