use il_core::{Halt, List};
use region_paths::Limit;
use sym_simplify::LitForm;

/// A hazard of a region: a long path that stops at a failed assertion, a failed postcondition, a division by zero or a
/// value out of range.
#[derive(Debug, Drop)]
pub struct Hazard {
    /// Its decisions.
    pub path: List<bool>,
    /// The forms of its literals.
    pub literals: List<LitForm>,
    /// Where it stops.
    pub halt: Halt,
    /// The least input of its literals; none where they are plainly refuted.
    pub least: Option<List<i64>>,
}

/// The hazards of a region, or the first limit that it passes.
#[derive(Debug, Drop)]
pub enum HazardsOr {
    /// The hazards, in order.
    Hazards(List<Hazard>),
    /// The region is too large.
    Past(Limit),
}
