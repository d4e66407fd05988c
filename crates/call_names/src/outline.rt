use il_core::{List, Name};

/// A variable of a procedure.
#[derive(Clone, Copy)]
pub(crate) struct Variable {
    /// Its name.
    pub name: Name,
    /// Whether it has an OLD copy.
    pub copied: bool,
}

/// What a procedure has that a call of it brings: its variables in the order of their declarations, and for each of its calls the number of
/// the procedure called, counted from 0.
#[derive(Drop)]
pub(crate) struct Outline {
    pub variables: List<Variable>,
    pub calls: List<usize>,
}
