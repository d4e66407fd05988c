ghost use Rattle.std.specs.Prelude.{◌≡◌, ◌≤◌, ◌<◌, ◌++◌, ◌∷◌, [], length, slice_get, IfOk, MatchOption, ℕ};
ghost use Rattle.difference.specs.Chains.{edges_of};

use crate::Edge;
use il_core::NoMemory;
use std::alloc::Global;

/// A step of a chain: the unknown that the edge enters, and the value that the chain proves for it up to here.
/// The value is read by proofs alone.
#[derive(Clone, Copy)]
pub struct Step {
    pub node: usize,
    pub value: i64,
    pub edge: Edge,
}

/// The place of the step that enters an unknown.
pub fn find_node(steps: &[Step], node: usize) -> Option<usize>
    ensures { MatchOption result ((k : ℕ) (s : Step) → slice_get steps.now k ≡ Some s → s.node ≡ node → ⊥) (λ j. (s : Step) × (slice_get steps.now j ≡ Some s) × (s.node ≡ node)) }
{
    steps.iter().position(|step| step.node == node)
}

/// The chain with one more step.
pub fn extended(alloc: Global, steps: &[Step], last: Step) -> Result<Vec<Step>, NoMemory>
    ensures { IfOk result (λ v. v.items ≡ steps.now ++ last ∷ []) }
{
    let mut longer = Vec::with_capacity(alloc, steps.len() + 1)?;
    longer.extend_from_slice(steps)?;
    longer.push(last)?;
    Ok(longer)
}

/// The edges of the steps, and one more.
pub fn evidence(alloc: Global, steps: &[Step], last: Edge) -> Result<Vec<Edge>, NoMemory>
    ensures { IfOk result (λ v. v.items ≡ edges_of steps.now ++ last ∷ []) }
{
    let mut edges = Vec::with_capacity(alloc, steps.len() + 1)?;
    for step in steps {
        edges.push(step.edge)?;
    }
    edges.push(last)?;
    Ok(edges)
}
