//! Numbered normal terms as values of their own.
ghost use Rattle.std.specs.Prelude.{◌≡◌, ◌<◌, length, pos, IfOk};
ghost use Rattle.sym_simplify.specs.Form.{constant};
ghost use Rattle.sym_simplify.specs.Table.{HasSidesBelow, ArePartsWithin, form_at, factor_at, on_top};
ghost use Rattle.sym_simplify.specs.Held.{form_of, factor_of};

use crate::{Atom, FormAtom, FormId, FormNode, FormPart, FormTable, Normal, Part};
use il_core::{List, NoMemory};
use std::alloc::Global;

/// The normal term of a number.
#[cycle(reading)]
#[tactic(auto, using(crate::proofs::HeldParts::rolled, crate::proofs::HeldParts::before_push, crate::proofs::Cells::reach_below))]
pub fn normal_at(alloc: Global, table: &FormTable, id: FormId) -> Result<Normal, NoMemory>
    requires { id.index < length table.now }
    ensures { IfOk result (λ n. form_of n ≡ form_at table.now id) }
{
    let mut parts = List::new(alloc);
    let mut at = id;
    'tail: loop {
        match table.node(at) {
            FormNode::Constant(constant) => return Ok(Normal { constant, parts }),
            FormNode::More(part, next) => {
                let atom = atom_at(alloc, table, part.atom)?;
                let coefficient = part.coefficient;
                parts.push(Part { coefficient, atom })?;
                at = next;
            }
        }
    }
}

/// An atom with its sides.
#[cycle(reading)]
#[tactic(auto, using(crate::proofs::Cells::reach_below))]
fn atom_at(alloc: Global, table: &FormTable, atom: FormAtom) -> Result<Atom, NoMemory>
    requires { HasSidesBelow (length table.now) atom }
    ensures { IfOk result (λ a. factor_of a ≡ factor_at table.now atom) }
{
    match atom {
        FormAtom::Var(place) => Ok(Atom::Var(place)),
        FormAtom::Mul(left, right) => {
            let left = Box::new(alloc, normal_at(alloc, table, left)?)?;
            let right = Box::new(alloc, normal_at(alloc, table, right)?)?;
            Ok(Atom::Mul(left, right))
        }
        FormAtom::Div(left, right) => {
            let left = Box::new(alloc, normal_at(alloc, table, left)?)?;
            let right = Box::new(alloc, normal_at(alloc, table, right)?)?;
            Ok(Atom::Div(left, right))
        }
        FormAtom::Mod(left, right) => {
            let left = Box::new(alloc, normal_at(alloc, table, left)?)?;
            let right = Box::new(alloc, normal_at(alloc, table, right)?)?;
            Ok(Atom::Mod(left, right))
        }
    }
}

/// The normal term of parts alone.
#[tactic(auto, using(crate::proofs::HeldParts::rolled))]
pub fn normal_from(alloc: Global, table: &FormTable, parts: &[FormPart]) -> Result<Normal, NoMemory>
    requires { ArePartsWithin table.now parts.now }
    ensures { IfOk result (λ n. form_of n ≡ on_top table.now parts.now (constant (pos 0))) }
{
    let mut read = List::new(alloc);
    for part in parts {
        let atom = atom_at(alloc, table, part.atom)?;
        let coefficient = part.coefficient;
        read.push(Part { coefficient, atom })?;
    }
    Ok(Normal {
        constant: 0,
        parts: read,
    })
}
