//! Each line as a relation between the points of several variables.
ghost use Rattle.std.specs.Prelude.{◌≡◌, ◌++◌, ◌≤◌, ◌<◌, ◌↔◌, ◌==◌, ℕ, length, map, IfOk};
ghost use Rattle.std.specs.Int.{bit_at};
ghost use Rattle.il_core.specs.LineGraph.{IsIn};
ghost use Rattle.regular_algebra.specs.Relation.{Joins};
ghost use Rattle.regular_algebra.specs.Relations.{ends_of};
ghost use Rattle.data_use.specs.Events.{reading, writing, events_of};
ghost use Rattle.data_use.specs.Points.{events_in, Carries};
ghost use Rattle.data_use.specs.Sums.{ends_along, EachCarries};

use crate::points::{Effect, POINTS, add_effect};
use flow_graph::{Arc, Node, NodeKind};
use il_core::NoMemory;
use regular_algebra::{BitRelation, Entry};
use std::alloc::Global;

/// Whether a mask has the bit of a variable.
fn has_bit(mask: u64, variable: usize) -> bool
    requires { variable < 64 }
    ensures { result ≡ (bit_at mask variable == 1) }
{
    mask >> variable & 1 == 1
}

/// A read, where the mask has the variable's bit.
fn read_effect(mask: u64, variable: usize) -> Effect
    requires { variable < 64 }
    ensures { events_in result ≡ reading mask variable }
{
    if has_bit(mask, variable) {
        Effect::Read
    } else {
        Effect::Nothing
    }
}

/// What an assignment does to a variable: it reads its right side, then writes its target.
fn assignment_effect(reads: u64, writes: Option<usize>, variable: usize) -> Effect
    requires { variable < 64 }
    ensures { events_in result ≡ reading reads variable ++ writing writes variable }
{
    match (has_bit(reads, variable), writes == Some(variable)) {
        (false, false) => Effect::Nothing,
        (true, false) => Effect::Read,
        (false, true) => Effect::Write,
        (true, true) => Effect::ReadThenWrite,
    }
}

/// What a line does to a variable.
fn effect_of(node: &Node, variable: usize) -> Effect
    requires { variable < 64 }
    ensures { events_in result ≡ events_of node.now variable }
{
    match node.kind {
        NodeKind::Assign => assignment_effect(node.reads, node.writes, variable),
        NodeKind::Test => read_effect(node.reads, variable),
        NodeKind::Last => read_effect(node.last_reads, variable),
        NodeKind::Assertion | NodeKind::Plain | NodeKind::Other => Effect::Nothing,
    }
}

/// The relation of line `at` on the points of at most nine variables.
fn line_relation(nodes: &[Node], at: usize, group: &[usize]) -> BitRelation
    requires line { at < length nodes.now }
    requires few { length group.now ≤ 9 }
    requires low { (v : ℕ) → IsIn group.now v → v < 64 }
    ensures { (x y : ℕ) → Joins result x y ↔ Carries nodes.now group.now (length group.now) at x y }
{
    let mut relation = BitRelation::empty();
    for (slot, variable) in group.iter().enumerate() {
        add_effect(
            &mut relation,
            slot * POINTS,
            effect_of(&nodes[at], *variable),
        );
    }
    relation
}

/// The arcs with the relations of their tails.
pub fn entries_of(
    alloc: Global,
    nodes: &[Node],
    arcs: &[Arc],
    group: &[usize],
) -> Result<Vec<Entry<BitRelation>>, NoMemory>
    requires tails { (a : Arc) → IsIn arcs.now a → a.tail < length nodes.now }
    requires few { length group.now ≤ 9 }
    requires low { (v : ℕ) → IsIn group.now v → v < 64 }
    ensures ends { IfOk result (λ es. ends_of es.items ≡ map ends_along arcs.now) }
    ensures values { IfOk result (λ es. EachCarries nodes.now group.now es.items) }
{
    let mut entries = Vec::with_capacity(alloc, arcs.len())?;
    for arc in arcs {
        entries.push(Entry {
            tail: arc.tail,
            head: arc.head,
            value: line_relation(nodes, arc.tail, group),
        })?;
    }
    Ok(entries)
}
