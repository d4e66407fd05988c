use il_core::{List, Stop};
use region_paths::Limit;
use sym_simplify::{LitForm, Normal};

/// A row of a table: one path of a region.
#[derive(Debug, Drop)]
pub struct Row {
    /// Its decisions.
    pub path: List<bool>,
    /// The forms of its literals.
    pub literals: List<LitForm>,
    /// Where it stops.
    pub stop: Stop,
    /// The value of each place there.
    pub values: List<Normal>,
}

/// A table, or the first limit that its region passes.
#[derive(Debug, Drop)]
pub enum TableOr {
    /// The rows, in order.
    Table(List<Row>),
    /// The region is too large.
    Past(Limit),
}
