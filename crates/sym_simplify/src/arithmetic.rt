//! Products, quotients and remainders of numbered normal terms.
ghost use Rattle.std.specs.Prelude.{◌≡◌, ◌<◌, ◌≤◌, ◌^◌, ◌*◌, length, unsigned_abs, IfOk};
ghost use Rattle.sym_terms.specs.Value.{quotient_by, remainder_by};
ghost use Rattle.sym_simplify.specs.Form.{over, rest, constant};
ghost use Rattle.sym_simplify.specs.Order.{form_cmp};
ghost use Rattle.sym_simplify.specs.Norm.{lesser_first, heft};
ghost use Rattle.sym_simplify.specs.Merge.{scale};
ghost use Rattle.sym_simplify.specs.Arithmetic.{product_form, division_form};
ghost use Rattle.sym_simplify.specs.Table.{HasSidesBelow, ArePartsWithin, form_at, factor_at};
ghost use Rattle.sym_simplify.specs.Open.{open_form};

use crate::{FormAtom, FormId, FormNode, FormTable, OpenForm};
use il_core::NoMemory;
use std::cmp::Ordering;

impl FormTable {
    /// The normal term that is a number.
    #[tactic(auto, using(crate::proofs::OpenParts::within_none))]
    pub fn number(&self, number: i128) -> OpenForm
        ensures form { open_form self.now result ≡ constant number }
        ensures within { ArePartsWithin self.now result.parts.items }
    {
        OpenForm {
            constant: number,
            parts: Vec::new(self.allocator()),
        }
    }

    /// The normal term of a product.
    pub fn product(&self, left: FormId, right: FormId) -> Result<OpenForm, NoMemory>
        requires left { left.index < length self.now }
        requires right { right.index < length self.now }
        requires small { heft (form_at self.now left) * heft (form_at self.now right) < 2 ^ 100 }
        ensures form { IfOk result (λ f. open_form self.now f ≡ product_form (form_at self.now left) (form_at self.now right)) }
        ensures within { IfOk result (λ f. ArePartsWithin self.now f.parts.items) }
    {
        match self.node(left) {
            FormNode::Constant(factor) => self.scaled(factor, right),
            FormNode::More(_, _) => match self.node(right) {
                FormNode::Constant(factor) => self.scaled(factor, left),
                FormNode::More(_, _) => self.single(self.lesser_first(left, right)),
            },
        }
    }

    fn scaled(&self, factor: i128, id: FormId) -> Result<OpenForm, NoMemory>
        requires within { id.index < length self.now }
        requires small { unsigned_abs factor * heft (form_at self.now id) < 2 ^ 100 }
        ensures form { IfOk result (λ f. open_form self.now f ≡ scale factor (form_at self.now id)) }
        ensures within { IfOk result (λ f. ArePartsWithin self.now f.parts.items) }
    {
        let form = self.opened(id)?;
        self.multiplied(factor, &form)
    }

    /// The product of two sides as an atom.
    fn lesser_first(&self, left: FormId, right: FormId) -> FormAtom
        requires left { left.index < length self.now }
        requires right { right.index < length self.now }
        ensures atom { factor_at self.now result ≡ lesser_first (form_cmp (form_at self.now left) (form_at self.now right)) (form_at self.now left) (form_at self.now right) }
        ensures within { HasSidesBelow (length self.now) result }
    {
        match self.compare(left, right) {
            Ordering::Less => FormAtom::Mul(left, right),
            Ordering::Equal => FormAtom::Mul(left, right),
            Ordering::Greater => FormAtom::Mul(right, left),
        }
    }

    /// The normal term of a quotient.
    pub fn quotient(&self, left: FormId, right: FormId) -> Result<OpenForm, NoMemory>
        requires left { left.index < length self.now }
        requires right { right.index < length self.now }
        requires small { heft (form_at self.now left) < 2 ^ 100 }
        ensures form { IfOk result (λ f. open_form self.now f ≡ division_form over (form_at self.now left) (form_at self.now right)) }
        ensures within { IfOk result (λ f. ArePartsWithin self.now f.parts.items) }
    {
        match self.node(left) {
            FormNode::Constant(dividend) => match self.node(right) {
                FormNode::Constant(divisor) => Ok(self.number(quotient_of(dividend, divisor))),
                FormNode::More(_, _) => self.single(FormAtom::Div(left, right)),
            },
            FormNode::More(_, _) => self.single(FormAtom::Div(left, right)),
        }
    }

    /// The normal term of a remainder.
    pub fn remainder(&self, left: FormId, right: FormId) -> Result<OpenForm, NoMemory>
        requires left { left.index < length self.now }
        requires right { right.index < length self.now }
        requires small { heft (form_at self.now left) < 2 ^ 100 }
        ensures form { IfOk result (λ f. open_form self.now f ≡ division_form rest (form_at self.now left) (form_at self.now right)) }
        ensures within { IfOk result (λ f. ArePartsWithin self.now f.parts.items) }
    {
        match self.node(left) {
            FormNode::Constant(dividend) => match self.node(right) {
                FormNode::Constant(divisor) => Ok(self.number(remainder_of(dividend, divisor))),
                FormNode::More(_, _) => self.single(FormAtom::Mod(left, right)),
            },
            FormNode::More(_, _) => self.single(FormAtom::Mod(left, right)),
        }
    }
}

/// The quotient, which is 0 where the divisor is 0.
fn quotient_of(dividend: i128, divisor: i128) -> i128
    requires { unsigned_abs dividend < 2 ^ 100 }
    ensures { result ≡ quotient_by dividend divisor }
{
    if divisor == 0 {
        0
    } else {
        dividend.div_euclid(divisor)
    }
}

/// The remainder, which is the dividend where the divisor is 0.
fn remainder_of(dividend: i128, divisor: i128) -> i128
    requires { unsigned_abs dividend < 2 ^ 100 }
    ensures { result ≡ remainder_by dividend divisor }
{
    if divisor == 0 {
        dividend
    } else {
        dividend.rem_euclid(divisor)
    }
}
