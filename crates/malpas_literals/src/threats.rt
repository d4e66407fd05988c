//! The threats of each procedure of a text.
ghost use Rattle.std.specs.Prelude.{IfOk};
ghost use Rattle.il_core.specs.Checked.{procedure_of};
ghost use Rattle.il_core.specs.Text.{text_of, text_procedure};
ghost use Rattle.flow_graph.specs.Graph.{graph_of};
ghost use Rattle.control_flow.specs.Control.{IsControlOf};
ghost use Rattle.interval_reduce.specs.Derivation.{IsDerivationOf};
ghost use Rattle.malpas_literals.specs.Threatened.{AreThreatsBy, IsThreatened, AreThreatened};

use compliance::{Threat, threats};
use control_flow::{Control, Shape, control_of};
use flow_graph::build;
use il_core::{CheckedProc, CheckedText, List, Name, NoMemory, Place};
use interval_reduce::{Derivation, derive};
use std::alloc::Global;
use test_graph::lower;

/// A procedure with its threats.
#[derive(Drop)]
pub struct Threatened {
    /// Its name.
    pub name: Name,
    /// Its places.
    pub places: List<Place>,
    /// The threats of all its regions within their size, in order; none where some loop has two entries.
    pub threats: Option<List<Threat>>,
}

/// The threats of a procedure exactly where its shape is reducible.
fn threats_by(
    alloc: Global,
    proc: &CheckedProc,
    control: &Control,
    derivation: &Derivation,
) -> Result<Option<List<Threat>>, NoMemory>
    requires control { IsControlOf (graph_of (procedure_of proc.now)) control.now }
    requires derivation { IsDerivationOf (graph_of (procedure_of proc.now)) control.now.shape derivation.now }
    ensures { IfOk result (AreThreatsBy (procedure_of proc.now) control.now.loops control.now.shape) }
{
    match control.shape {
        Shape::Reducible => {
            let tests = lower(alloc, proc)?;
            let found = threats(alloc, proc, &tests, control, derivation)?;
            Ok(Some(found))
        }
        Shape::TwoEntries(_) => Ok(None),
    }
}

/// A procedure with its threats.
fn threats_of_proc(alloc: Global, proc: &CheckedProc) -> Result<Threatened, NoMemory>
    ensures { IfOk result (IsThreatened (text_procedure proc.now)) }
{
    let graph = build(alloc, proc)?;
    let control = control_of(alloc, &graph)?;
    let derivation = derive(alloc, &graph, &control)?;
    let threats = threats_by(alloc, proc, &control, &derivation)?;
    let places = Vec::from_slice(alloc, proc.places().as_slice())?;
    Ok(Threatened {
        name: proc.name(),
        places: List::from_vec(places),
        threats,
    })
}

/// Each procedure of a text with its threats, in order. The only error is `NoMemory`.
pub(crate) fn all_threatened(
    alloc: Global,
    text: &CheckedText,
) -> Result<List<Threatened>, NoMemory>
    ensures { IfOk result (AreThreatened (text_of text.now).procs) }
{
    let mut all = List::new(alloc);
    for proc in text.procs().as_slice() {
        let next = threats_of_proc(alloc, proc)?;
        all.push(next)?;
    }
    Ok(all)
}
