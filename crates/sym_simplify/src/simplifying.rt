//! Normal terms and forms of terms and literals that stand alone.
ghost use Rattle.std.specs.Prelude.{◌≡◌, ◌<◌, ◌≤◌, ◌+◌, ◌^◌, IfOk};
ghost use Rattle.std.specs.Option.{option_map};
ghost use Rattle.il_core.specs.Evaluation.{State};
ghost use Rattle.sym_terms.specs.Tree.{tree_of};
ghost use Rattle.sym_terms.specs.Value.{value_of, literal_holds};
ghost use Rattle.sym_terms.specs.Measure.{weight, depth};
ghost use Rattle.sym_simplify.specs.Form.{form_value};
ghost use Rattle.sym_simplify.specs.Norm.{norm as normal_form, heft};
ghost use Rattle.sym_simplify.specs.Normal.{IsNormal};
ghost use Rattle.sym_simplify.specs.Held.{form_of};
ghost use Rattle.sym_simplify.specs.Literal.{form_of_literal, literal_form_of, form_holds, IsKeptBelow};
ghost use Rattle.sym_simplify.specs.Linear.{linear_in, linear_of};

use crate::{Forms, LinearTerm, LitForm, Normal};
use il_core::NoMemory;
use std::alloc::Global;
use sym_terms::{Literal, Term};

/// The normal term of a term, which has the term's value in every state. Its coefficients and its constant are together
/// less than 2^100 in absolute value. `NoMemory` comes only where memory runs out. The cost is that of one merge of the
/// parts for each sum, and of one product for each number that multiplies a part.
#[tactic(auto, using(crate::proofs::Alone::norm_keeps))]
pub fn norm(alloc: Global, term: &Term) -> Result<Normal, NoMemory>
    requires weight { weight (tree_of term.now) < 2 ^ 100 }
    requires depth { depth (tree_of term.now) ≤ 1000 }
    ensures form { IfOk result (λ n. form_of n ≡ normal_form (tree_of term.now)) }
    ensures normal { IfOk result (λ n. IsNormal (form_of n)) }
    ensures value { IfOk result (λ n. (s : State) → form_value (form_of n) s ≡ value_of (tree_of term.now) s) }
    ensures small { IfOk result (λ n. heft (form_of n) < 2 ^ 100) }
{
    normalized(alloc, term)
}

fn normalized(alloc: Global, term: &Term) -> Result<Normal, NoMemory>
    requires weight { weight (tree_of term.now) < 2 ^ 100 }
    requires depth { depth (tree_of term.now) ≤ 1000 }
    ensures { IfOk result (λ n. form_of n ≡ normal_form (tree_of term.now)) }
{
    let mut forms = Forms::new(alloc)?;
    let id = forms.put_term(term)?;
    let form = forms.norm(id)?;
    forms.read(form)
}

/// The form of a literal, which holds in the same states. Its parts are a normal term with the constant 0 and a first
/// coefficient above 0, and their coefficients and the bound are together less than 2^100 in absolute value. `NoMemory`
/// comes only where memory runs out. The cost is that of the normal terms of both sides and one merge more.
#[tactic(auto, using(crate::proofs::Alone::literal_keeps_truth))]
pub fn norm_literal(alloc: Global, literal: &Literal) -> Result<LitForm, NoMemory>
    requires weight { weight (tree_of literal.now.left) + weight (tree_of literal.now.right) < 2 ^ 100 }
    requires left_depth { depth (tree_of literal.now.left) ≤ 1000 }
    requires right_depth { depth (tree_of literal.now.right) ≤ 1000 }
    ensures form { IfOk result (λ f. literal_form_of f ≡ form_of_literal literal.now) }
    ensures value { IfOk result (λ f. (s : State) → form_holds (literal_form_of f) s ≡ literal_holds literal.now s) }
    ensures fits { IfOk result (λ f. IsKeptBelow (2 ^ 100) (literal_form_of f)) }
{
    literal_normalized(alloc, literal)
}

#[tactic(auto, using(crate::proofs::Alone::both_sides))]
fn literal_normalized(alloc: Global, literal: &Literal) -> Result<LitForm, NoMemory>
    requires weight { weight (tree_of literal.now.left) + weight (tree_of literal.now.right) < 2 ^ 100 }
    requires left_depth { depth (tree_of literal.now.left) ≤ 1000 }
    requires right_depth { depth (tree_of literal.now.right) ≤ 1000 }
    ensures form { IfOk result (λ f. literal_form_of f ≡ form_of_literal literal.now) }
    ensures fits { IfOk result (λ f. IsKeptBelow (2 ^ 100) (literal_form_of f)) }
{
    let mut forms = Forms::new(alloc)?;
    let left = forms.put_term(&literal.left)?;
    let right = forms.put_term(&literal.right)?;
    forms.literal(literal.relation, left, right)
}

/// The constant and the places of a term's normal term; `None` comes exactly where it has an atom other than a place.
/// `NoMemory` comes only where memory runs out. The cost is that of the normal term.
pub fn linear(alloc: Global, term: &Term) -> Result<Option<LinearTerm>, NoMemory>
    requires weight { weight (tree_of term.now) < 2 ^ 100 }
    requires depth { depth (tree_of term.now) ≤ 1000 }
    ensures { IfOk result (λ o. option_map linear_in o ≡ linear_of (normal_form (tree_of term.now))) }
{
    let mut forms = Forms::new(alloc)?;
    let id = forms.put_term(term)?;
    let form = forms.norm(id)?;
    forms.linear(form)
}
