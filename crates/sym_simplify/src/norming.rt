//! The normal terms of a pool's terms. Each term that is not a sum is worked on once. A sum is worked on without a
//! number when it is first met, as a side of another sum, so that a long chain of sums numbers no partial ones; when it
//! is met again it gets a number.
ghost use Rattle.std.specs.Prelude.{◌≡◌, ◌<◌, ◌+◌, ◌^◌, length, IfOk};
ghost use Rattle.sym_terms.specs.Grown.{Keeps};
ghost use Rattle.sym_terms.specs.Nodes.{tree_at};
ghost use Rattle.sym_terms.specs.Measure.{weight};
ghost use Rattle.sym_simplify.specs.Norm.{norm};
ghost use Rattle.sym_simplify.specs.Table.{ArePartsWithin, form_at};
ghost use Rattle.sym_simplify.specs.Open.{open_form};
ghost use Rattle.sym_simplify.specs.Literal.{difference, compared, literal_form_of, IsKeptBelow};
ghost use Rattle.sym_simplify.specs.Known.{IsKnown};

use crate::{FormAtom, FormId, FormTable, LitForm, OpenForm};
use il_core::{NoMemory, Relation};
use std::collections::{HashMap, HashSet};
use sym_terms::{Pool, TermId, TermNode};

/// The number of the normal term of a term.
#[cycle(norming)]
#[tactic(auto, using(crate::proofs::Remembered::norming))]
pub fn norm_in(
    terms: &Pool,
    table: &mut FormTable,
    known: &mut HashMap<usize, FormId>,
    seen: &mut HashSet<usize>,
    id: TermId,
) -> Result<FormId, NoMemory>
    requires id { id.index < length terms.now }
    requires weight { weight (tree_at terms.now id) < 2 ^ 100 }
    requires known { IsKnown terms.now table.old known.old }
    ensures within { IfOk result (λ f. f.index < length table.new) }
    ensures form { IfOk result (λ f. form_at table.new f ≡ norm (tree_at terms.now id)) }
    ensures kept { Keeps table.old table.new }
    ensures known { IsKnown terms.now table.new known.new }
{
    if let Some(form) = known.get(&id.index) {
        return Ok(*form);
    }
    let open = open_in(terms, table, known, seen, id)?;
    let form = table.closed(&open)?;
    known.insert(id.index, form)?;
    Ok(form)
}

/// The normal term of a term, with its parts at hand.
#[cycle(norming)]
#[tactic(auto, using(crate::proofs::Remembered::norming))]
fn open_in(
    terms: &Pool,
    table: &mut FormTable,
    known: &mut HashMap<usize, FormId>,
    seen: &mut HashSet<usize>,
    id: TermId,
) -> Result<OpenForm, NoMemory>
    requires id { id.index < length terms.now }
    requires weight { weight (tree_at terms.now id) < 2 ^ 100 }
    requires known { IsKnown terms.now table.old known.old }
    ensures within { IfOk result (λ f. ArePartsWithin table.new f.parts.items) }
    ensures form { IfOk result (λ f. open_form table.new f ≡ norm (tree_at terms.now id)) }
    ensures kept { Keeps table.old table.new }
    ensures known { IsKnown terms.now table.new known.new }
{
    match terms.node(id) {
        TermNode::Num(number) => Ok(table.number(number)),
        TermNode::Var(place) => table.single(FormAtom::Var(place)),
        TermNode::Add(a, b) => {
            let left = side_in(terms, table, known, seen, a)?;
            let right = side_in(terms, table, known, seen, b)?;
            table.merged(&left, &right)
        }
        TermNode::Mul(a, b) => {
            let left = norm_in(terms, table, known, seen, a)?;
            let right = norm_in(terms, table, known, seen, b)?;
            table.product(left, right)
        }
        TermNode::Div(a, b) => {
            let left = norm_in(terms, table, known, seen, a)?;
            let right = norm_in(terms, table, known, seen, b)?;
            table.quotient(left, right)
        }
        TermNode::Mod(a, b) => {
            let left = norm_in(terms, table, known, seen, a)?;
            let right = norm_in(terms, table, known, seen, b)?;
            table.remainder(left, right)
        }
    }
}

/// The normal term of a side of a sum, with its parts at hand.
#[cycle(norming)]
#[tactic(auto, using(crate::proofs::Remembered::norming))]
fn side_in(
    terms: &Pool,
    table: &mut FormTable,
    known: &mut HashMap<usize, FormId>,
    seen: &mut HashSet<usize>,
    id: TermId,
) -> Result<OpenForm, NoMemory>
    requires id { id.index < length terms.now }
    requires weight { weight (tree_at terms.now id) < 2 ^ 100 }
    requires known { IsKnown terms.now table.old known.old }
    ensures within { IfOk result (λ f. ArePartsWithin table.new f.parts.items) }
    ensures form { IfOk result (λ f. open_form table.new f ≡ norm (tree_at terms.now id)) }
    ensures kept { Keeps table.old table.new }
    ensures known { IsKnown terms.now table.new known.new }
{
    if is_sum(terms.node(id)) && !known.contains_key(&id.index) && seen.insert(id.index)? {
        return open_in(terms, table, known, seen, id);
    }
    let form = norm_in(terms, table, known, seen, id)?;
    table.opened(form)
}

fn is_sum(node: TermNode) -> bool {
    matches!(node, TermNode::Add(_, _))
}

/// The form of a literal.
#[tactic(auto, using(crate::proofs::Remembered::comparing_sides))]
pub fn literal_in(
    terms: &Pool,
    table: &mut FormTable,
    known: &mut HashMap<usize, FormId>,
    seen: &mut HashSet<usize>,
    relation: Relation,
    left: TermId,
    right: TermId,
) -> Result<LitForm, NoMemory>
    requires left { left.index < length terms.now }
    requires right { right.index < length terms.now }
    requires weight { weight (tree_at terms.now left) + weight (tree_at terms.now right) < 2 ^ 100 }
    requires known { IsKnown terms.now table.old known.old }
    ensures form { IfOk result (λ f. literal_form_of f ≡ compared relation (difference (tree_at terms.now left) (tree_at terms.now right))) }
    ensures fits { IfOk result (λ f. IsKeptBelow (2 ^ 100) (literal_form_of f)) }
    ensures kept { Keeps table.old table.new }
    ensures known { IsKnown terms.now table.new known.new }
{
    let first = norm_in(terms, table, known, seen, left)?;
    let second = norm_in(terms, table, known, seen, right)?;
    let form = table.difference(first, second)?;
    table.compared(relation, &form)
}
