ghost use Rattle.std.specs.Prelude.{◌≡◌, ◌<◌, Some, length, slice_get, IfOk, OnErr};
ghost use Rattle.sym_terms.specs.Grown.{Keeps};
ghost use Rattle.sym_simplify.specs.Table.{IsTable, NamesBelow};

use crate::{FormId, FormNode};
use il_core::NoMemory;
use indexmap::IndexSet;
use std::alloc::Global;
use std::marker::Model;

/// The cells of normal terms, each kept once and named by its number. A cell names only cells with lower numbers, so
/// each number has a normal term. Equal normal terms have equal numbers.
#[derive(Drop)]
pub struct FormTable {
    nodes: IndexSet<FormNode>,
    alloc: Global,
}

impl Model for FormTable {
    ghost use Rattle.std.specs.Prelude.{List};
    ghost use Rattle.sym_simplify.specs.declared.node.FormNode.{FormNode};
    ghost use Rattle.sym_simplify.specs.Table.{IsTable};

    ghost Value = { List FormNode };

    ghost view = { λ t. t.nodes.keys };

    ghost invariant = { λ t. IsTable t.nodes.keys };
}

impl FormTable {
    ghost use Rattle.std.specs.Prelude.{◌≡◌, ◌<◌, ◌↔◌, [], Some, length, slice_get, IfOk, OnErr, IsTrue};
    ghost use Rattle.sym_terms.specs.Grown.{Keeps};
    ghost use Rattle.sym_simplify.specs.Table.{IsTable, NamesBelow, form_at, node_form};

    /// The empty table.
    pub fn new(alloc: Global) -> FormTable
        ensures { result ≡ [] }
    {
        FormTable {
            nodes: IndexSet::new(alloc),
            alloc,
        }
    }

    pub fn allocator(&self) -> Global {
        self.alloc
    }

    /// The cell of a number.
    #[tactic(auto, using(crate::proofs::Cells::form_of_node))]
    pub fn node(&self, id: FormId) -> FormNode
        requires { id.index < length self.now }
        ensures node { slice_get self.now id.index ≡ Some result }
        ensures form { form_at self.now id ≡ node_form self.now result }
        ensures lower { NamesBelow id.index result }
        ensures table { IsTable self.now }
    {
        self.listed(id)
    }

    fn listed(&self, id: FormId) -> FormNode
        requires { id.index < length self.now }
        ensures node { slice_get self.now id.index ≡ Some result }
        ensures table { IsTable self.now }
    {
        self.nodes.as_slice()[id.index]
    }

    /// The number at which this cell stands; it is added at the end if it is new. After `NoMemory` the table is as
    /// before.
    #[tactic(auto, using(crate::proofs::Cells::made_form))]
    pub fn put(&mut self, node: FormNode) -> Result<FormId, NoMemory>
        requires { NamesBelow (length self.old) node }
        ensures within { IfOk result (λ id. id.index < length self.new) }
        ensures form { IfOk result (λ id. form_at self.new id ≡ node_form self.old node) }
        ensures kept { Keeps self.old self.new }
        ensures unchanged { OnErr result (self.new ≡ self.old) }
        ensures table { IsTable self.new }
    {
        insert(&mut self.nodes, node)
    }

    /// Whether two numbers have the same normal term: they have it exactly where they are equal.
    pub fn are_same(&self, a: FormId, b: FormId) -> bool
        requires left { a.index < length self.now }
        requires right { b.index < length self.now }
        ensures same { IsTrue result ↔ (form_at self.now a ≡ form_at self.now b) }
        ensures equal { IsTrue result ↔ (a ≡ b) }
    {
        let _first = self.node(a);
        a == b
    }
}

/// Numbers a cell among those that stand.
fn insert(nodes: &mut IndexSet<FormNode>, node: FormNode) -> Result<FormId, NoMemory>
    requires table { IsTable nodes.old.keys }
    requires below { NamesBelow (length nodes.old.keys) node }
    ensures node { IfOk result (λ id. slice_get nodes.new.keys id.index ≡ Some node) }
    ensures kept { Keeps nodes.old.keys nodes.new.keys }
    ensures unchanged { OnErr result (nodes.new.keys ≡ nodes.old.keys) }
    ensures table { IsTable nodes.new.keys }
{
    let (index, _is_new) = nodes.insert_full(node)?;
    Ok(FormId { index })
}
