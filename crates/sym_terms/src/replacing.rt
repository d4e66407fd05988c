//! Substitution in a pool, with each node substituted once.

use crate::{Pool, TermId, TermNode};
use il_core::NoMemory;
use std::collections::HashMap;

impl Pool {
    ghost use Rattle.std.specs.Prelude.{◌≡◌, ◌<◌, length, IfOk, OnOk};
    ghost use Rattle.sym_terms.specs.Substitution.{substituted, HasPlacesBelow};
    ghost use Rattle.sym_terms.specs.Grown.{Keeps};
    ghost use Rattle.sym_terms.specs.Nodes.{IsPool, tree_at, terms_of, AreWithin, IsMemo};

    /// The number of the term of `id` in which each place is replaced by the term of its number in `env`. It substitutes
    /// each distinct node once. Nodes that are new are added at the end, also before `NoMemory`.
    #[tactic(auto, using(crate::proofs::Memos::memo_none))]
    pub fn subst(&mut self, id: TermId, env: &[TermId]) -> Result<TermId, NoMemory>
        requires id { id.index < length self.old }
        requires env { AreWithin self.old env.now }
        requires places { HasPlacesBelow (length env.now) (tree_at self.old id) }
        ensures within { IfOk result (λ r. r.index < length self.new) }
        ensures term { IfOk result (λ r. tree_at self.new r ≡ substituted (terms_of self.old env.now) (tree_at self.old id)) }
        ensures kept { Keeps self.old self.new }
        ensures pool { IsPool self.new }
    {
        let mut memo = HashMap::new(self.allocator());
        self.subst_in(id, env, &mut memo)
    }

    /// What the memo has answered, else a new answer, which it keeps.
    #[cycle(substitution)]
    #[tactic(auto, using(crate::proofs::Memos::substituting))]
    fn subst_in(
        &mut self,
        id: TermId,
        env: &[TermId],
        memo: &mut HashMap<usize, TermId>,
    ) -> Result<TermId, NoMemory>
        requires id { id.index < length self.old }
        requires env { AreWithin self.old env.now }
        requires places { HasPlacesBelow (length env.now) (tree_at self.old id) }
        requires memo { IsMemo self.old env.now memo.old }
        ensures within { IfOk result (λ r. r.index < length self.new) }
        ensures term { IfOk result (λ r. tree_at self.new r ≡ substituted (terms_of self.old env.now) (tree_at self.old id)) }
        ensures kept { Keeps self.old self.new }
        ensures pool { IsPool self.new }
        ensures memo { OnOk result (IsMemo self.new env.now memo.new) }
    {
        let _node = self.node(id);
        if let Some(known) = memo.get(&id.index) {
            return Ok(*known);
        }
        let fresh = self.fresh_in(id, env, memo)?;
        memo.insert(id.index, fresh)?;
        Ok(fresh)
    }

    /// The answer for a node that the memo does not have.
    #[cycle(substitution)]
    #[tactic(auto, using(crate::proofs::Memos::substituting))]
    fn fresh_in(
        &mut self,
        id: TermId,
        env: &[TermId],
        memo: &mut HashMap<usize, TermId>,
    ) -> Result<TermId, NoMemory>
        requires id { id.index < length self.old }
        requires env { AreWithin self.old env.now }
        requires places { HasPlacesBelow (length env.now) (tree_at self.old id) }
        requires memo { IsMemo self.old env.now memo.old }
        ensures within { IfOk result (λ r. r.index < length self.new) }
        ensures term { IfOk result (λ r. tree_at self.new r ≡ substituted (terms_of self.old env.now) (tree_at self.old id)) }
        ensures kept { Keeps self.old self.new }
        ensures pool { IsPool self.new }
        ensures memo { OnOk result (IsMemo self.new env.now memo.new) }
    {
        match self.node(id) {
            TermNode::Num(_) => Ok(id),
            TermNode::Var(place) => Ok(env[place]),
            TermNode::Add(a, b) => {
                let (left, right) = self.sides_in(a, b, env, memo)?;
                self.put(TermNode::Add(left, right))
            }
            TermNode::Mul(a, b) => {
                let (left, right) = self.sides_in(a, b, env, memo)?;
                self.put(TermNode::Mul(left, right))
            }
            TermNode::Div(a, b) => {
                let (left, right) = self.sides_in(a, b, env, memo)?;
                self.put(TermNode::Div(left, right))
            }
            TermNode::Mod(a, b) => {
                let (left, right) = self.sides_in(a, b, env, memo)?;
                self.put(TermNode::Mod(left, right))
            }
        }
    }

    /// The answers for both sides of a node.
    #[cycle(substitution)]
    #[tactic(auto, using(crate::proofs::Memos::substituting))]
    fn sides_in(
        &mut self,
        a: TermId,
        b: TermId,
        env: &[TermId],
        memo: &mut HashMap<usize, TermId>,
    ) -> Result<(TermId, TermId), NoMemory>
        requires left { a.index < length self.old }
        requires right { b.index < length self.old }
        requires env { AreWithin self.old env.now }
        requires left_places { HasPlacesBelow (length env.now) (tree_at self.old a) }
        requires right_places { HasPlacesBelow (length env.now) (tree_at self.old b) }
        requires memo { IsMemo self.old env.now memo.old }
        ensures left_within { IfOk result (λ r. r.0.index < length self.new) }
        ensures right_within { IfOk result (λ r. r.1.index < length self.new) }
        ensures left { IfOk result (λ r. tree_at self.new r.0 ≡ substituted (terms_of self.old env.now) (tree_at self.old a)) }
        ensures right { IfOk result (λ r. tree_at self.new r.1 ≡ substituted (terms_of self.old env.now) (tree_at self.old b)) }
        ensures kept { Keeps self.old self.new }
        ensures pool { IsPool self.new }
        ensures memo { OnOk result (IsMemo self.new env.now memo.new) }
    {
        let left = self.subst_in(a, env, memo)?;
        let right = self.subst_in(b, env, memo)?;
        Ok((left, right))
    }
}
