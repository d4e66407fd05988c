//! A row of an elimination's table: the values that it has, in the order of the nodes that they lead to.
ghost use Rattle.std.specs.Prelude.{◌≡◌, [], OnOk, OnErr, IfOk, IfErr};
ghost use Rattle.regular_algebra.specs.Rows.{value_to, IsRising, StandsAt, GoesAt, SetsValue};

use il_core::NoMemory;
use std::alloc::Global;
use std::marker::Model;

/// The node that a value leads to, and the number of the value.
#[derive(Clone, Copy)]
pub struct Item {
    pub node: usize,
    pub value: usize,
}

/// The items of a row. Their nodes rise, so each is found by halving.
#[derive(Drop)]
pub struct Row {
    items: Vec<Item>,
}

impl Model for Row {
    ghost use Rattle.std.specs.Prelude.{List};
    ghost use Rattle.regular_algebra.specs.Rows.{IsRising};
    ghost use Rattle.regular_algebra.specs.declared.row.Item.{Item};

    ghost Value = { List Item };

    ghost view = { λ row. row.items.items };

    ghost invariant = { λ row. IsRising row.items.items };
}

impl Row {
    /// A row without values.
    pub fn new(alloc: Global) -> Row
        ensures { result ≡ [] }
    {
        Row {
            items: Vec::new(alloc),
        }
    }

    /// The items in the order of their nodes.
    pub fn items(&self) -> &[Item]
        ensures all { result.now ≡ self.now }
        ensures rising { IsRising self.now }
    {
        self.items.as_slice()
    }

    /// The number of the value that leads to `node`.
    pub fn value_to(&self, node: usize) -> Option<usize>
        ensures { result ≡ value_to self.now node }
    {
        match self.search(node) {
            Ok(at) => Some(self.items[at].value),
            Err(_) => None,
        }
    }

    /// Lets another value lead to `node`. After `NoMemory` the row is as before.
    pub fn set(&mut self, node: usize, value: usize) -> Result<(), NoMemory>
        ensures ok { OnOk result (SetsValue self.old self.new node value) }
        ensures err { OnErr result (self.new ≡ self.old) }
    {
        match self.search(node) {
            Ok(at) => {
                self.items[at] = Item { node, value };
                Ok(())
            }
            Err(at) => Ok(self.items.insert(at, Item { node, value })?),
        }
    }

    /// Where the item of a node stands, or where it would go.
    fn search(&self, node: usize) -> Result<usize, usize>
        ensures stands { IfOk result (StandsAt self.now node) }
        ensures goes { IfErr result (GoesAt self.now node) }
    {
        self.items.binary_search_by_key(&node, |item| item.node)
    }
}
