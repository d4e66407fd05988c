//! The form of a literal: its sides are combined as normal terms, and their difference is compared to 0.
ghost use Rattle.std.specs.Prelude.{◌≡◌, ◌<◌, ◌+◌, ◌^◌, length, pos, negsuc, neg_ℤ, unsigned_abs, IfOk};
ghost use Rattle.il_core.specs.Evaluation.{compares};
ghost use Rattle.sym_simplify.specs.Form.{constant};
ghost use Rattle.sym_simplify.specs.Norm.{heft};
ghost use Rattle.sym_simplify.specs.Merge.{merge, scale};
ghost use Rattle.sym_simplify.specs.Table.{ArePartsWithin, form_at};
ghost use Rattle.sym_simplify.specs.Open.{open_form};
ghost use Rattle.sym_simplify.specs.Literal.{mirrored, keep, kept, compared, literal_form_of};
ghost use Rattle.sym_simplify.specs.Held.{form_of};

use crate::reading::normal_from;
use crate::{FormId, FormTable, Kept, LitForm, Normal, OpenForm};
use il_core::{NoMemory, Relation};

/// The relation of the negated sides.
fn mirror(relation: Relation) -> Relation
    ensures { result ≡ mirrored relation }
{
    match relation {
        Relation::Eq => Relation::Eq,
        Relation::Ne => Relation::Ne,
        Relation::Lt => Relation::Gt,
        Relation::Le => Relation::Ge,
        Relation::Gt => Relation::Lt,
        Relation::Ge => Relation::Le,
    }
}

/// Whether a number compares to 0 like this.
fn compares_to_zero(relation: Relation, number: i128) -> bool
    ensures { result ≡ compares relation number (pos 0) }
{
    match relation {
        Relation::Eq => number == 0,
        Relation::Ne => number != 0,
        Relation::Lt => number < 0,
        Relation::Le => number <= 0,
        Relation::Gt => number > 0,
        Relation::Ge => number >= 0,
    }
}

/// The form of a number compared to 0.
fn number_form(relation: Relation, number: i128) -> LitForm
    ensures { literal_form_of result ≡ compared relation (constant number) }
{
    if compares_to_zero(relation, number) {
        LitForm::Always
    } else {
        LitForm::Never
    }
}

/// Parts compared to the negated constant.
fn kept_form(sum: Normal, relation: Relation, form: &OpenForm) -> LitForm
    requires { unsigned_abs form.now.constant < 2 ^ 100 }
    ensures { literal_form_of result ≡ keep (form_of sum) relation (neg_ℤ form.now.constant) }
{
    LitForm::Keep(Kept {
        sum,
        relation,
        bound: -form.constant,
    })
}

impl FormTable {
    /// The normal term of one term minus another one, from the normal terms of both.
    #[tactic(auto, using(crate::proofs::LiteralForms::negated_heft))]
    pub fn difference(&self, left: FormId, right: FormId) -> Result<OpenForm, NoMemory>
        requires left { left.index < length self.now }
        requires right { right.index < length self.now }
        requires small { heft (form_at self.now left) + heft (form_at self.now right) < 2 ^ 100 }
        ensures form { IfOk result (λ f. open_form self.now f ≡ merge (form_at self.now left) (scale (negsuc 0) (form_at self.now right))) }
        ensures within { IfOk result (λ f. ArePartsWithin self.now f.parts.items) }
    {
        let left = self.opened(left)?;
        let right = self.opened(right)?;
        let negated = self.multiplied(-1, &right)?;
        self.merged(&left, &negated)
    }

    /// The form of a normal term compared to 0.
    pub fn compared(&self, relation: Relation, form: &OpenForm) -> Result<LitForm, NoMemory>
        requires within { ArePartsWithin self.now form.now.parts.items }
        requires small { heft (open_form self.now form.now) < 2 ^ 100 }
        ensures { IfOk result (λ f. literal_form_of f ≡ compared relation (open_form self.now form.now)) }
    {
        match form.parts.first() {
            None => Ok(number_form(relation, form.constant)),
            Some(first) => {
                if first.coefficient < 0 {
                    let negated = self.multiplied(-1, form)?;
                    self.kept(mirror(relation), &negated)
                } else {
                    self.kept(relation, form)
                }
            }
        }
    }

    fn kept(&self, relation: Relation, form: &OpenForm) -> Result<LitForm, NoMemory>
        requires within { ArePartsWithin self.now form.now.parts.items }
        requires small { heft (open_form self.now form.now) < 2 ^ 100 }
        ensures { IfOk result (λ f. literal_form_of f ≡ kept relation (open_form self.now form.now)) }
    {
        let sum = normal_from(self.allocator(), self, &form.parts)?;
        Ok(kept_form(sum, relation, form))
    }
}
