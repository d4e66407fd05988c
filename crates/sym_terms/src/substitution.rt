ghost use Rattle.std.specs.Prelude.{◌≡◌, length, IfOk};
ghost use Rattle.il_core.specs.Evaluation.{State};
ghost use Rattle.sym_terms.specs.Tree.{tree_of};
ghost use Rattle.sym_terms.specs.Value.{value_of};
ghost use Rattle.sym_terms.specs.Substitution.{substituted, trees, state_of, HasPlacesBelow};

use crate::{Env, Term};
use il_core::NoMemory;
use std::alloc::Global;

/// The term with each place replaced by its term in `env`. Its value in a state is the term's value in the state that
/// `env` gives.
#[tactic(auto, using(crate::proofs::Values::value_kept))]
pub fn subst(alloc: Global, term: &Term, env: &Env) -> Result<Term, NoMemory>
    requires { HasPlacesBelow (length env.now) (tree_of term.now) }
    ensures term { IfOk result (λ t. tree_of t ≡ substituted (trees env.now) (tree_of term.now)) }
    ensures value { IfOk result (λ t. (s : State) → value_of (tree_of t) s ≡ value_of (tree_of term.now) (state_of (trees env.now) s)) }
{
    replaced(alloc, term, env)
}

fn replaced(alloc: Global, term: &Term, env: &Env) -> Result<Term, NoMemory>
    requires { HasPlacesBelow (length env.now) (tree_of term.now) }
    ensures { IfOk result (λ t. tree_of t ≡ substituted (trees env.now) (tree_of term.now)) }
{
    match term {
        Term::Num(number) => Ok(Term::Num(*number)),
        Term::Var(place) => env.get(*place).copied(alloc),
        Term::Add(a, b) => Ok(Term::Add(
            Box::new(alloc, replaced(alloc, a, env)?)?,
            Box::new(alloc, replaced(alloc, b, env)?)?,
        )),
        Term::Mul(a, b) => Ok(Term::Mul(
            Box::new(alloc, replaced(alloc, a, env)?)?,
            Box::new(alloc, replaced(alloc, b, env)?)?,
        )),
        Term::Div(a, b) => Ok(Term::Div(
            Box::new(alloc, replaced(alloc, a, env)?)?,
            Box::new(alloc, replaced(alloc, b, env)?)?,
        )),
        Term::Mod(a, b) => Ok(Term::Mod(
            Box::new(alloc, replaced(alloc, a, env)?)?,
            Box::new(alloc, replaced(alloc, b, env)?)?,
        )),
    }
}
