use crate::Term;
use il_core::NoMemory;
use std::alloc::Global;
use std::marker::Model;

/// One term for each place: what the place holds, over the places of an earlier state.
#[derive(Drop)]
pub struct Env {
    terms: Vec<Term>,
}

impl Model for Env {
    ghost use Rattle.std.specs.Prelude.{List};
    ghost use Rattle.std.specs.Coded.{codes};
    ghost use Rattle.sym_terms.specs.declared.term.Term.{Term};
    ghost use Rattle.sym_terms.specs.contracts.term.Term as e;

    ghost Value = { List Term };

    ghost coded = { Prim.hlevel (codes, e.the_row.coded) };

    ghost view = { λ e. e.terms.items };
}

impl Env {
    ghost use Rattle.std.specs.Prelude.{◌≡◌, ◌<◌, Some, length, slice_get, slice_set, IfOk};
    ghost use Rattle.sym_terms.specs.Substitution.{variables};

    /// The environment of that many places that maps each place to itself.
    pub fn start(alloc: Global, places: usize) -> Result<Env, NoMemory>
        ensures { IfOk result (λ e. e ≡ variables places) }
    {
        let mut terms = Vec::with_capacity(alloc, places)?;
        for place in 0..places {
            terms.push(Term::Var(place))?;
        }
        Ok(Env { terms })
    }

    /// The term of a place.
    pub fn get(&self, place: usize) -> &Term
        requires { place < length self.now }
        ensures { slice_get self.now place ≡ Some result.now }
    {
        &self.terms[place]
    }

    /// Gives a place another term. All other places keep theirs.
    pub fn set(&mut self, place: usize, term: Term)
        requires { place < length self.old }
        ensures { self.new ≡ slice_set self.old place term }
    {
        self.terms[place] = term;
    }
}
