ghost use Rattle.std.specs.Prelude.{◌≡◌, Some, length, slice_get, IfOk, OnErr};
ghost use Rattle.sym_terms.specs.Grown.{Keeps};
ghost use Rattle.sym_terms.specs.Nodes.{IsPool, NamesBelow};

use crate::{Term, TermId, TermNode};
use il_core::NoMemory;
use indexmap::IndexSet;
use std::alloc::Global;
use std::marker::Model;

/// A pool of nodes, each kept once and named by its number. A node names only nodes with lower numbers, so each number
/// has a term: the tree found by following the numbers. Equal terms have equal numbers.
#[derive(Drop)]
pub struct Pool {
    nodes: IndexSet<TermNode>,
    alloc: Global,
}

impl Model for Pool {
    ghost use Rattle.std.specs.Prelude.{List};
    ghost use Rattle.sym_terms.specs.declared.node.TermNode.{TermNode};
    ghost use Rattle.sym_terms.specs.Nodes.{IsPool};

    ghost Value = { List TermNode };

    ghost view = { λ p. p.nodes.keys };

    ghost invariant = { λ p. IsPool p.nodes.keys };
}

impl Pool {
    ghost use Rattle.std.specs.Prelude.{◌≡◌, ◌<◌, ◌↔◌, ◌++◌, [], ◌∷◌, Some, length, slice_get, IfOk, OnErr, IfSome, IsTrue};
    ghost use Rattle.sym_terms.specs.Tree.{tree_of};
    ghost use Rattle.sym_terms.specs.Grown.{Keeps};
    ghost use Rattle.sym_terms.specs.Nodes.{IsPool, NamesBelow, tree_at, node_term};

    /// The empty pool.
    pub fn new(alloc: Global) -> Result<Pool, NoMemory>
        ensures { IfOk result (λ p. p ≡ []) }
    {
        Ok(Pool {
            nodes: IndexSet::new(alloc),
            alloc,
        })
    }

    pub(crate) fn allocator(&self) -> Global {
        self.alloc
    }

    /// The number of nodes.
    pub fn len(&self) -> usize
        ensures { result ≡ length self.now }
    {
        self.nodes.len()
    }

    /// The node with this number; `None` exactly where the number is not below the length.
    #[tactic(auto, using(crate::proofs::Terms::found_term, crate::proofs::Terms::found_lower))]
    pub fn get(&self, id: TermId) -> Option<TermNode>
        ensures node { result ≡ slice_get self.now id.index }
        ensures term { IfSome result (λ n. tree_at self.now id ≡ node_term self.now n) }
        ensures lower { IfSome result (NamesBelow id.index) }
    {
        self.nodes.get_index(id.index).copied()
    }

    /// The node of a number below the length.
    #[tactic(auto, using(crate::proofs::Terms::term_of_node))]
    pub fn node(&self, id: TermId) -> TermNode
        requires { id.index < length self.now }
        ensures node { slice_get self.now id.index ≡ Some result }
        ensures term { tree_at self.now id ≡ node_term self.now result }
        ensures lower { NamesBelow id.index result }
        ensures pool { IsPool self.now }
    {
        self.listed(id)
    }

    fn listed(&self, id: TermId) -> TermNode
        requires { id.index < length self.now }
        ensures node { slice_get self.now id.index ≡ Some result }
        ensures pool { IsPool self.now }
    {
        self.nodes.as_slice()[id.index]
    }

    /// The number at which this node stands; it is added at the end if it is new. After `NoMemory` the pool is as
    /// before.
    #[tactic(auto, using(crate::proofs::Terms::made_term))]
    pub fn put(&mut self, node: TermNode) -> Result<TermId, NoMemory>
        requires { NamesBelow (length self.old) node }
        ensures node { IfOk result (λ id. slice_get self.new id.index ≡ Some node) }
        ensures within { IfOk result (λ id. id.index < length self.new) }
        ensures term { IfOk result (λ id. tree_at self.new id ≡ node_term self.old node) }
        ensures kept { Keeps self.old self.new }
        ensures unchanged { OnErr result (self.new ≡ self.old) }
        ensures pool { IsPool self.new }
    {
        insert(&mut self.nodes, node)
    }

    /// Whether two numbers have the same term: they have it exactly where they are equal.
    pub fn are_same(&self, a: TermId, b: TermId) -> bool
        requires left { a.index < length self.now }
        requires right { b.index < length self.now }
        ensures same { IsTrue result ↔ (tree_at self.now a ≡ tree_at self.now b) }
        ensures equal { IsTrue result ↔ (a ≡ b) }
    {
        let _first = self.node(a);
        a == b
    }

    /// The number of this term. Nodes that are new are added at the end, also before `NoMemory`.
    #[tactic(auto, using(crate::proofs::Terms::keeping))]
    pub fn put_term(&mut self, term: &Term) -> Result<TermId, NoMemory>
        ensures within { IfOk result (λ id. id.index < length self.new) }
        ensures term { IfOk result (λ id. tree_at self.new id ≡ tree_of term.now) }
        ensures kept { Keeps self.old self.new }
        ensures pool { IsPool self.new }
    {
        match term {
            Term::Num(number) => self.put(TermNode::Num(*number)),
            Term::Var(place) => self.put(TermNode::Var(*place)),
            Term::Add(a, b) => {
                let left = self.put_term(a)?;
                let right = self.put_term(b)?;
                self.put(TermNode::Add(left, right))
            }
            Term::Mul(a, b) => {
                let left = self.put_term(a)?;
                let right = self.put_term(b)?;
                self.put(TermNode::Mul(left, right))
            }
            Term::Div(a, b) => {
                let left = self.put_term(a)?;
                let right = self.put_term(b)?;
                self.put(TermNode::Div(left, right))
            }
            Term::Mod(a, b) => {
                let left = self.put_term(a)?;
                let right = self.put_term(b)?;
                self.put(TermNode::Mod(left, right))
            }
        }
    }
}

/// Numbers a node among those that stand.
fn insert(nodes: &mut IndexSet<TermNode>, node: TermNode) -> Result<TermId, NoMemory>
    requires pool { IsPool nodes.old.keys }
    requires below { NamesBelow (length nodes.old.keys) node }
    ensures node { IfOk result (λ id. slice_get nodes.new.keys id.index ≡ Some node) }
    ensures kept { Keeps nodes.old.keys nodes.new.keys }
    ensures unchanged { OnErr result (nodes.new.keys ≡ nodes.old.keys) }
    ensures pool { IsPool nodes.new.keys }
{
    let (index, _is_new) = nodes.insert_full(node)?;
    Ok(TermId { index })
}
