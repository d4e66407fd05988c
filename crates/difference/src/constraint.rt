/// The values of an unknown: from `least` to `greatest`, both included.
#[derive(Debug, Clone, Copy, PartialEq, Eq)]
pub struct Range64 {
    /// The least value.
    pub least: i64,
    /// The greatest value.
    pub greatest: i64,
}

/// A difference constraint: the unknown `left` minus the unknown `right` is at most `bound`. An unknown is the index of
/// its range, and `None` stands for 0.
#[derive(Debug, Clone, Copy, PartialEq, Eq)]
pub struct Constraint {
    /// The unknown that is bounded from above.
    pub left: Option<usize>,
    /// The unknown that is taken from it.
    pub right: Option<usize>,
    /// The greatest difference.
    pub bound: i128,
}

/// Two constraints of which one is to be met.
#[derive(Debug, Clone, Copy, PartialEq, Eq)]
pub struct Split {
    /// The side that is tried first.
    pub low: Constraint,
    /// The side that is tried where the low one gives no solution.
    pub high: Constraint,
}

/// A quantity that no solution makes negative.
#[derive(Debug, Clone, Copy, PartialEq, Eq)]
pub enum Edge {
    /// The value of an unknown less the least of its range.
    Low(usize),
    /// The greatest of an unknown's range less its value.
    High(usize),
    /// The bound of the constraint with this index, less its left unknown, plus its right unknown.
    Given(usize),
}
