/// What may be too large about a region.
#[derive(Clone, Copy, Debug, PartialEq, Eq)]
pub enum Limit {
    /// It has more than 16,384 long paths.
    Rows,
    /// The comparisons and the assigned terms of its long paths have more than 2,097,152 nodes together.
    Nodes,
    /// One of these weighs 2^100 or more.
    Weight,
    /// One of these is deeper than 1,000.
    Depth,
}
