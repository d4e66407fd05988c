//! The order of numbered normal terms. Equal ones have one number, so at most one pair of sides is followed at each
//! level.

use crate::{FormAtom, FormId, FormNode, FormTable};
use std::cmp::Ordering;

impl FormTable {
    ghost use Rattle.std.specs.Prelude.{◌≡◌, ◌<◌, length};
    ghost use Rattle.std.specs.Ordering.{ordering_then};
    ghost use Rattle.sym_simplify.specs.Order.{form_cmp, factor_cmp};
    ghost use Rattle.sym_simplify.specs.Table.{HasSidesBelow, form_at, factor_at};

    /// How two normal terms compare.
    #[cycle(comparing)]
    #[tactic(auto, using(crate::proofs::Cells::reach_below, crate::proofs::Ordered::form_self))]
    pub fn compare(&self, a: FormId, b: FormId) -> Ordering
        requires left { a.index < length self.now }
        requires right { b.index < length self.now }
        ensures { result ≡ form_cmp (form_at self.now a) (form_at self.now b) }
    {
        let mut left = a;
        let mut right = b;
        'parts: while left != right {
            match self.node(left) {
                FormNode::Constant(c) => {
                    return match self.node(right) {
                        FormNode::Constant(d) => c.cmp(&d),
                        FormNode::More(_, _) => Ordering::Less,
                    };
                }
                FormNode::More(part, next) => match self.node(right) {
                    FormNode::Constant(_) => return Ordering::Greater,
                    FormNode::More(other, after) => {
                        let atoms = self.compare_atoms(part.atom, other.atom);
                        match atoms.then(part.coefficient.cmp(&other.coefficient)) {
                            Ordering::Less => return Ordering::Less,
                            Ordering::Greater => return Ordering::Greater,
                            Ordering::Equal => {
                                left = next;
                                right = after;
                            }
                        }
                    }
                },
            }
        }
        Ordering::Equal
    }

    /// How two atoms compare.
    #[cycle(comparing)]
    #[tactic(auto, using(crate::proofs::Cells::reach_below, crate::proofs::Ordered::form_self))]
    pub fn compare_atoms(&self, a: FormAtom, b: FormAtom) -> Ordering
        requires left { HasSidesBelow (length self.now) a }
        requires right { HasSidesBelow (length self.now) b }
        ensures { result ≡ factor_cmp (factor_at self.now a) (factor_at self.now b) }
    {
        match a {
            FormAtom::Var(place) => match b {
                FormAtom::Var(other) => place.cmp(&other),
                FormAtom::Mul(_, _) => Ordering::Less,
                FormAtom::Div(_, _) => Ordering::Less,
                FormAtom::Mod(_, _) => Ordering::Less,
            },
            FormAtom::Mul(left, right) => match b {
                FormAtom::Var(_) => Ordering::Greater,
                FormAtom::Mul(first, second) => self.compare_sides(left, right, first, second),
                FormAtom::Div(_, _) => Ordering::Less,
                FormAtom::Mod(_, _) => Ordering::Less,
            },
            FormAtom::Div(left, right) => match b {
                FormAtom::Var(_) => Ordering::Greater,
                FormAtom::Mul(_, _) => Ordering::Greater,
                FormAtom::Div(first, second) => self.compare_sides(left, right, first, second),
                FormAtom::Mod(_, _) => Ordering::Less,
            },
            FormAtom::Mod(left, right) => match b {
                FormAtom::Var(_) => Ordering::Greater,
                FormAtom::Mul(_, _) => Ordering::Greater,
                FormAtom::Div(_, _) => Ordering::Greater,
                FormAtom::Mod(first, second) => self.compare_sides(left, right, first, second),
            },
        }
    }

    /// How two pairs of sides compare: by the left sides, and then by the right ones.
    #[cycle(comparing)]
    #[tactic(auto, using(crate::proofs::Cells::reach_below, crate::proofs::Ordered::form_self))]
    fn compare_sides(&self, a: FormId, b: FormId, c: FormId, d: FormId) -> Ordering
        requires a { a.index < length self.now }
        requires b { b.index < length self.now }
        requires c { c.index < length self.now }
        requires d { d.index < length self.now }
        ensures { result ≡ ordering_then (form_cmp (form_at self.now a) (form_at self.now c)) (form_cmp (form_at self.now b) (form_at self.now d)) }
    {
        match self.compare(a, c) {
            Ordering::Less => Ordering::Less,
            Ordering::Equal => self.compare(b, d),
            Ordering::Greater => Ordering::Greater,
        }
    }
}
