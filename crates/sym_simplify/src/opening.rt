//! Normal terms with their parts at hand, and what is made of them.

ghost use Rattle.std.specs.Prelude.{◌≡◌, ◌<◌, ◌+◌, ◌*◌, ◌^◌, ◌≤◌, ◌++◌, [], ◌∷◌, Some, length, drop, slice_get, unsigned_abs, ◌+ℤ◌, ◌*ℤ◌, pos, OnOk, if◌then◌else◌};
ghost use Rattle.std.specs.Ordering.{int_eq};
ghost use Rattle.sym_simplify.specs.Open.{with_coefficient};

use crate::{FormAtom, FormId, FormNode, FormPart, FormTable};
use il_core::NoMemory;
use std::alloc::Global;
use std::cmp::Ordering;

/// A normal term with its parts at hand, one after the other; the sides of their atoms are numbered.
#[derive(Drop)]
pub struct OpenForm {
    /// The constant.
    pub constant: i128,
    /// The parts.
    pub parts: Vec<FormPart>,
}

impl FormTable {
    ghost use Rattle.std.specs.Prelude.{◌≡◌, ◌<◌, ◌+◌, ◌*◌, ◌^◌, length, unsigned_abs, IfOk, pos};
    ghost use Rattle.sym_terms.specs.Grown.{Keeps};
    ghost use Rattle.sym_simplify.specs.Form.{constant, part};
    ghost use Rattle.sym_simplify.specs.Norm.{heft};
    ghost use Rattle.sym_simplify.specs.Merge.{merge, scale};
    ghost use Rattle.sym_simplify.specs.Table.{IsTable, HasSidesBelow, ArePartsWithin, form_at, factor_at};
    ghost use Rattle.sym_simplify.specs.Open.{open_form};

    /// The normal term of a number with its parts at hand.
    #[tactic(auto, using(crate::proofs::OpenParts::within_push, crate::proofs::OpenParts::within_none, crate::proofs::OpenParts::on_top_push, crate::proofs::Cells::sides_further))]
    pub fn opened(&self, id: FormId) -> Result<OpenForm, NoMemory>
        requires { id.index < length self.now }
        ensures form { IfOk result (λ f. open_form self.now f ≡ form_at self.now id) }
        ensures within { IfOk result (λ f. ArePartsWithin self.now f.parts.items) }
    {
        let mut parts = Vec::new(self.allocator());
        let mut at = id;
        loop {
            match self.node(at) {
                FormNode::Constant(constant) => return Ok(OpenForm { constant, parts }),
                FormNode::More(part, next) => {
                    parts.push(part)?;
                    at = next;
                }
            }
        }
    }

    /// The number of a normal term. Cells that are new are added at the end, also before `NoMemory`.
    #[tactic(auto, using(crate::proofs::OpenParts::closing_start, crate::proofs::OpenParts::closing_step, crate::proofs::OpenParts::sides_now))]
    pub fn closed(&mut self, form: &OpenForm) -> Result<FormId, NoMemory>
        requires { ArePartsWithin self.old form.now.parts.items }
        ensures within { IfOk result (λ id. id.index < length self.new) }
        ensures form { IfOk result (λ id. form_at self.new id ≡ open_form self.old form.now) }
        ensures kept { Keeps self.old self.new }
    {
        let mut id = self.put(FormNode::Constant(form.constant))?;
        let mut left = form.parts.len();
        while left > 0 {
            left -= 1;
            id = self.put(FormNode::More(part_at(&form.parts, left), id))?;
        }
        Ok(id)
    }

    /// The sum of two normal terms.
    pub fn merged(&self, left: &OpenForm, right: &OpenForm) -> Result<OpenForm, NoMemory>
        requires left { ArePartsWithin self.now left.now.parts.items }
        requires right { ArePartsWithin self.now right.now.parts.items }
        requires small { heft (open_form self.now left.now) + heft (open_form self.now right.now) < 2 ^ 100 }
        ensures form { IfOk result (λ f. open_form self.now f ≡ merge (open_form self.now left.now) (open_form self.now right.now)) }
        ensures within { IfOk result (λ f. ArePartsWithin self.now f.parts.items) }
    {
        let mut parts = Vec::new(self.allocator());
        let mut i = 0;
        let mut j = 0;
        while i < left.parts.len() && j < right.parts.len() {
            let part = part_at(&left.parts, i);
            let other = part_at(&right.parts, j);
            match self.compare_atoms(part.atom, other.atom) {
                Ordering::Less => {
                    parts.push(part)?;
                    i += 1;
                }
                Ordering::Equal => {
                    push_sum(&mut parts, part, other)?;
                    i += 1;
                    j += 1;
                }
                Ordering::Greater => {
                    parts.push(other)?;
                    j += 1;
                }
            }
        }
        append_from(&mut parts, &left.parts, i)?;
        append_from(&mut parts, &right.parts, j)?;
        Ok(with_sum(left, right, parts))
    }

    /// A normal term with each number multiplied.
    #[tactic(auto, using(crate::proofs::OpenParts::within_none))]
    pub fn multiplied(&self, factor: i128, form: &OpenForm) -> Result<OpenForm, NoMemory>
        requires within { ArePartsWithin self.now form.now.parts.items }
        requires small { unsigned_abs factor * heft (open_form self.now form.now) < 2 ^ 100 }
        ensures form { IfOk result (λ f. open_form self.now f ≡ scale factor (open_form self.now form.now)) }
        ensures within { IfOk result (λ f. ArePartsWithin self.now f.parts.items) }
    {
        let mut parts = Vec::new(self.allocator());
        if factor == 0 {
            return Ok(OpenForm { constant: 0, parts });
        }
        for part in &form.parts {
            parts.push(times_part(factor, *part))?;
        }
        Ok(with_multiple(factor, form, parts))
    }

    /// The normal term that has one atom, once.
    #[tactic(auto, using(crate::proofs::OpenParts::within_push, crate::proofs::OpenParts::within_none))]
    pub fn single(&self, atom: FormAtom) -> Result<OpenForm, NoMemory>
        requires { HasSidesBelow (length self.now) atom }
        ensures form { IfOk result (λ f. open_form self.now f ≡ part (pos 1) (factor_at self.now atom) (constant (pos 0))) }
        ensures within { IfOk result (λ f. ArePartsWithin self.now f.parts.items) }
    {
        let mut parts = Vec::new(self.allocator());
        parts.push(FormPart {
            coefficient: 1,
            atom,
        })?;
        Ok(OpenForm { constant: 0, parts })
    }
}

/// The parts with the sum of the constants.
fn with_sum(left: &OpenForm, right: &OpenForm, parts: Vec<FormPart>) -> OpenForm
    requires { unsigned_abs left.now.constant + unsigned_abs right.now.constant < 2 ^ 100 }
    ensures constant { result.constant ≡ left.now.constant +ℤ right.now.constant }
    ensures parts { result.parts.items ≡ parts.items }
{
    OpenForm {
        constant: left.constant + right.constant,
        parts,
    }
}

/// The parts with the constant multiplied.
fn with_multiple(factor: i128, form: &OpenForm, parts: Vec<FormPart>) -> OpenForm
    requires { unsigned_abs factor * unsigned_abs form.now.constant < 2 ^ 100 }
    ensures constant { result.constant ≡ factor *ℤ form.now.constant }
    ensures parts { result.parts.items ≡ parts.items }
{
    OpenForm {
        constant: factor * form.constant,
        parts,
    }
}

fn times_part(factor: i128, part: FormPart) -> FormPart
    requires { unsigned_abs factor * unsigned_abs part.coefficient < 2 ^ 100 }
    ensures { result ≡ with_coefficient (factor *ℤ part.coefficient) part }
{
    FormPart {
        coefficient: factor * part.coefficient,
        atom: part.atom,
    }
}

fn part_at(parts: &[FormPart], at: usize) -> FormPart
    requires { at < length parts.now }
    ensures { slice_get parts.now at ≡ Some result }
{
    parts[at]
}

/// Adds the second part with the sum of both coefficients, unless that is 0.
fn push_sum(parts: &mut Vec<FormPart>, part: FormPart, other: FormPart) -> Result<(), NoMemory>
    requires { unsigned_abs part.coefficient + unsigned_abs other.coefficient < 2 ^ 100 }
    ensures { OnOk result (parts.new.items ≡ (if int_eq (part.coefficient +ℤ other.coefficient) (pos 0) then parts.old.items else parts.old.items ++ with_coefficient (part.coefficient +ℤ other.coefficient) other ∷ [])) }
{
    let coefficient = part.coefficient + other.coefficient;
    if coefficient != 0 {
        parts.push(FormPart {
            coefficient,
            atom: other.atom,
        })?;
    }
    Ok(())
}

/// Adds the parts from a position on.
fn append_from(parts: &mut Vec<FormPart>, more: &[FormPart], from: usize) -> Result<(), NoMemory>
    requires { from ≤ length more.now }
    ensures { OnOk result (parts.new.items ≡ parts.old.items ++ drop from more.now) }
{
    parts.extend_from_slice(&more[from..])?;
    Ok(())
}
