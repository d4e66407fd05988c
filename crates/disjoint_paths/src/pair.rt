use il_core::List;

/// Two paths that share the line from which they start alone.
#[derive(Drop)]
pub struct Pair {
    /// The lines of the first path, from the shared line on.
    pub left: List<usize>,
    /// The lines of the second path, from the shared line on.
    pub right: List<usize>,
}
