use il_core::Next;

/// One step along given decisions.
#[derive(Clone, Copy, Debug, PartialEq, Eq)]
pub struct Taken {
    /// The next line or the halt.
    pub next: Next,
    /// How many decisions the step took.
    pub used: usize,
}
