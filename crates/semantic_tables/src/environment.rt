//! The term of each place along a walk, by its number.
ghost use Rattle.std.specs.Prelude.{◌≡◌, ◌<◌, ◌≤◌, Some, length, slice_get, slice_set, IfOk};
ghost use Rattle.sym_terms.specs.Tree.{tree_of};
ghost use Rattle.sym_terms.specs.Substitution.{substituted, HasPlacesBelow};
ghost use Rattle.sym_terms.specs.Comparison.{comparison_of, comparison_under, ComparesPlacesBelow};
ghost use Rattle.sym_terms.specs.Grown.{Keeps};
ghost use Rattle.sym_terms.specs.Identity.{own_values};
ghost use Rattle.sym_terms.specs.Nodes.{tree_at, terms_of, AreWithin};
ghost use Rattle.semantic_tables.specs.Walk.{comparison_at, IsEnvironment};

use crate::prefix::Sides;
use il_core::NoMemory;
use std::alloc::Global;
use sym_simplify::Forms;
use sym_terms::{Literal, Term, TermId};

/// The number of a term in which each place is replaced by the term of its number.
pub fn put_under(forms: &mut Forms, env: &[TermId], term: &Term) -> Result<TermId, NoMemory>
    requires env { AreWithin forms.old.terms env.now }
    requires places { HasPlacesBelow (length env.now) (tree_of term.now) }
    ensures within { IfOk result (λ id. id.index < length forms.new.terms) }
    ensures term { IfOk result (λ id. tree_at forms.new.terms id ≡ substituted (terms_of forms.old.terms env.now) (tree_of term.now)) }
    ensures kept { Keeps forms.old.terms forms.new.terms }
{
    let id = forms.put_term(term)?;
    forms.subst(id, env)
}

/// The numbers of the sides of a comparison in which each place is replaced by the term of its number.
pub fn sides_under(forms: &mut Forms, env: &[TermId], literal: &Literal) -> Result<Sides, NoMemory>
    requires env { AreWithin forms.old.terms env.now }
    requires places { ComparesPlacesBelow (length env.now) (comparison_of literal.now) }
    ensures left { IfOk result (λ s. s.left.index < length forms.new.terms) }
    ensures right { IfOk result (λ s. s.right.index < length forms.new.terms) }
    ensures sides { IfOk result (λ s. comparison_at forms.new.terms s ≡ comparison_under (terms_of forms.old.terms env.now) (comparison_of literal.now)) }
    ensures kept { Keeps forms.old.terms forms.new.terms }
{
    let left = put_under(forms, env, &literal.left)?;
    let right = put_under(forms, env, &literal.right)?;
    Ok(Sides {
        left,
        relation: literal.relation,
        right,
    })
}

/// Puts a place's term in place of the one before, which it answers.
pub fn exchange(env: &mut [TermId], place: usize, id: TermId) -> TermId
    requires { place < length env.old }
    ensures before { slice_get env.old place ≡ Some result }
    ensures after { env.new ≡ slice_set env.old place id }
{
    let was = env[place];
    env[place] = id;
    was
}

/// The numbers of the first `count` places, each of which stands for itself.
pub fn own_terms(alloc: Global, forms: &mut Forms, count: usize) -> Result<Vec<TermId>, NoMemory>
    ensures env { IfOk result (λ env. IsEnvironment count forms.new.terms env.items) }
    ensures own { IfOk result (λ env. terms_of forms.new.terms env.items ≡ own_values count) }
{
    let mut env = Vec::new(alloc);
    for place in 0..count {
        env.push(forms.put_term(&Term::Var(place))?)?;
    }
    Ok(env)
}
