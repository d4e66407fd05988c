use crate::norming::{literal_in, norm_in};
use crate::reading::normal_at;
use crate::{FormId, FormTable, LinearTerm, LitForm, Normal};
use il_core::{NoMemory, Relation};
use std::alloc::Global;
use std::collections::{HashMap, HashSet};
use std::marker::Model;
use sym_terms::{Pool, Term, TermId};

/// Terms and their normal terms, each kept once and named by its number (hash consing: A. P. Ershov, 1958). Equal normal
/// terms have equal numbers, and so have equal terms. What was found stays, so a term that is met again costs one
/// look-up. `NoMemory` comes only where memory runs out.
#[derive(Drop)]
pub struct Forms {
    terms: Pool,
    table: FormTable,
    known: HashMap<usize, FormId>,
    seen: HashSet<usize>,
    alloc: Global,
}

impl Model for Forms {
    ghost use Rattle.sym_simplify.specs.Store.{Store};
    ghost use Rattle.sym_simplify.specs.Known.{IsKnown};

    ghost Value = { Store };

    ghost view = { λ f. record { terms = f.terms; forms = f.table } };

    ghost invariant = { λ f. IsKnown f.terms f.table f.known };
}

impl Forms {
    ghost use Rattle.std.specs.Prelude.{◌≡◌, ◌<◌, ◌≤◌, ◌+◌, ◌^◌, ◌↔◌, [], length, IfOk, IsTrue};
    ghost use Rattle.std.specs.Option.{option_map};
    ghost use Rattle.il_core.specs.Evaluation.{State, compares};
    ghost use Rattle.sym_terms.specs.Value.{value_of};
    ghost use Rattle.sym_terms.specs.Tree.{tree_of};
    ghost use Rattle.sym_terms.specs.Substitution.{substituted, HasPlacesBelow};
    ghost use Rattle.sym_terms.specs.Measure.{weight, depth};
    ghost use Rattle.sym_terms.specs.Grown.{Keeps};
    ghost use Rattle.sym_terms.specs.Nodes.{tree_at, terms_of, AreWithin};
    ghost use Rattle.sym_simplify.specs.Norm.{norm};
    ghost use Rattle.sym_simplify.specs.Table.{form_at};
    ghost use Rattle.sym_simplify.specs.Held.{form_of};
    ghost use Rattle.sym_simplify.specs.Literal.{difference, compared, literal_form_of, form_holds, IsKeptBelow};
    ghost use Rattle.sym_simplify.specs.Linear.{linear_in, linear_of};

    /// No terms and no normal terms.
    #[tactic(auto, using(crate::proofs::Remembered::known_none))]
    pub fn new(alloc: Global) -> Result<Forms, NoMemory>
        ensures terms { IfOk result (λ f. f.terms ≡ []) }
        ensures forms { IfOk result (λ f. f.forms ≡ []) }
    {
        Ok(Forms {
            terms: Pool::new(alloc)?,
            table: FormTable::new(alloc),
            known: HashMap::new(alloc),
            seen: HashSet::new(alloc),
            alloc,
        })
    }

    /// The terms.
    pub fn terms(&self) -> &Pool
        ensures { result.now ≡ self.now.terms }
    {
        &self.terms
    }

    /// The number of this term. Nodes that are new are added at the end, also before `NoMemory`.
    #[tactic(auto, using(crate::proofs::Remembered::known_later))]
    pub fn put_term(&mut self, term: &Term) -> Result<TermId, NoMemory>
        ensures within { IfOk result (λ id. id.index < length self.new.terms) }
        ensures term { IfOk result (λ id. tree_at self.new.terms id ≡ tree_of term.now) }
        ensures kept { Keeps self.old.terms self.new.terms }
        ensures forms { self.new.forms ≡ self.old.forms }
    {
        self.terms.put_term(term)
    }

    /// The number of the term of `id` in which each place is replaced by the term of its number in `env`. Nodes that are
    /// new are added at the end, also before `NoMemory`.
    #[tactic(auto, using(crate::proofs::Remembered::known_later))]
    pub fn subst(&mut self, id: TermId, env: &[TermId]) -> Result<TermId, NoMemory>
        requires id { id.index < length self.old.terms }
        requires env { AreWithin self.old.terms env.now }
        requires places { HasPlacesBelow (length env.now) (tree_at self.old.terms id) }
        ensures within { IfOk result (λ r. r.index < length self.new.terms) }
        ensures term { IfOk result (λ r. tree_at self.new.terms r ≡ substituted (terms_of self.old.terms env.now) (tree_at self.old.terms id)) }
        ensures kept { Keeps self.old.terms self.new.terms }
        ensures forms { self.new.forms ≡ self.old.forms }
    {
        self.terms.subst(id, env)
    }

    /// The number of the normal term of a term. Earlier numbers keep their terms and normal terms, also after
    /// `NoMemory`. Each term below it that is not known yet is worked on at most twice. The stack holds as many calls as
    /// the term is deep.
    pub fn norm(&mut self, id: TermId) -> Result<FormId, NoMemory>
        requires id { id.index < length self.old.terms }
        requires weight { weight (tree_at self.old.terms id) < 2 ^ 100 }
        requires depth { depth (tree_at self.old.terms id) ≤ 1000 }
        ensures within { IfOk result (λ f. f.index < length self.new.forms) }
        ensures form { IfOk result (λ f. form_at self.new.forms f ≡ norm (tree_at self.old.terms id)) }
        ensures terms { self.new.terms ≡ self.old.terms }
        ensures kept { Keeps self.old.forms self.new.forms }
    {
        norm_in(
            &self.terms,
            &mut self.table,
            &mut self.known,
            &mut self.seen,
            id,
        )
    }

    /// Whether two numbers have the same normal term: they have it exactly where they are equal.
    pub fn are_same(&self, a: FormId, b: FormId) -> bool
        requires left { a.index < length self.now.forms }
        requires right { b.index < length self.now.forms }
        ensures same { IsTrue result ↔ (form_at self.now.forms a ≡ form_at self.now.forms b) }
        ensures equal { IsTrue result ↔ (a ≡ b) }
    {
        self.table.are_same(a, b)
    }

    /// The normal term of a number.
    pub fn read(&self, id: FormId) -> Result<Normal, NoMemory>
        requires { id.index < length self.now.forms }
        ensures { IfOk result (λ n. form_of n ≡ form_at self.now.forms id) }
    {
        normal_at(self.alloc, &self.table, id)
    }

    /// The constant and the places of a numbered normal term; `None` exactly where it has another atom.
    pub fn linear(&self, id: FormId) -> Result<Option<LinearTerm>, NoMemory>
        requires { id.index < length self.now.forms }
        ensures { IfOk result (λ o. option_map linear_in o ≡ linear_of (form_at self.now.forms id)) }
    {
        self.table.linear(id)
    }

    /// The form of the literal with these sides, which holds in the same states. Earlier numbers keep their terms and
    /// normal terms, also after `NoMemory`. The stack holds as many calls as the sides are deep.
    #[tactic(auto, using(crate::proofs::LiteralForms::literal_value))]
    pub fn literal(
        &mut self,
        relation: Relation,
        left: TermId,
        right: TermId,
    ) -> Result<LitForm, NoMemory>
        requires left { left.index < length self.old.terms }
        requires right { right.index < length self.old.terms }
        requires weight { weight (tree_at self.old.terms left) + weight (tree_at self.old.terms right) < 2 ^ 100 }
        requires left_depth { depth (tree_at self.old.terms left) ≤ 1000 }
        requires right_depth { depth (tree_at self.old.terms right) ≤ 1000 }
        ensures form { IfOk result (λ f. literal_form_of f ≡ compared relation (difference (tree_at self.old.terms left) (tree_at self.old.terms right))) }
        ensures value { IfOk result (λ f. (s : State) → form_holds (literal_form_of f) s ≡ compares relation (value_of (tree_at self.old.terms left) s) (value_of (tree_at self.old.terms right) s)) }
        ensures fits { IfOk result (λ f. IsKeptBelow (2 ^ 100) (literal_form_of f)) }
        ensures terms { self.new.terms ≡ self.old.terms }
        ensures kept { Keeps self.old.forms self.new.forms }
    {
        literal_in(
            &self.terms,
            &mut self.table,
            &mut self.known,
            &mut self.seen,
            relation,
            left,
            right,
        )
    }
}
