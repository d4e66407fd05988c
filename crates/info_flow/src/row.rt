use il_core::List;

/// What the final value of a variable rests on.
#[derive(Drop)]
pub struct FlowRow {
    /// The variable's place.
    pub place: usize,
    /// The places whose initial values decide it, ascending.
    pub sources: List<usize>,
    /// The reachable tests that decide it, ascending.
    pub tests: List<usize>,
}
