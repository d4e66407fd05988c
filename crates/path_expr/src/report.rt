use il_core::List;

/// What a definition or the whole is made of.
#[derive(Clone, Copy, Debug, PartialEq, Eq)]
pub enum Ref {
    /// No path.
    Zero,
    /// The empty path.
    One,
    /// The arc of this number; arcs count from 1.
    Arc(usize),
    /// The definition of this number; definitions count from 1.
    Def(usize),
}

/// A path expression over earlier definitions.
#[derive(Clone, Copy, Debug, PartialEq, Eq)]
pub enum Def {
    /// A path of either side.
    Sum(Ref, Ref),
    /// A path of the left side and then one of the right.
    Product(Ref, Ref),
    /// Any number of paths of its side, one after the other.
    Star(Ref),
}

/// All paths through a procedure as one expression.
#[derive(Drop)]
pub struct PathReport {
    /// The definitions, each over earlier ones alone.
    pub defs: List<Def>,
    /// The paths from line 0 to the last line.
    pub whole: Ref,
}
