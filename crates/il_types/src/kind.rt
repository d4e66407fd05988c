/// The kind of a value.
#[derive(Clone, Copy, PartialEq, Eq)]
pub enum Kind {
    /// A whole number.
    Whole,
    /// A truth value.
    Truth,
    /// A value of the enumeration that the statement of this number declares.
    Enumeration(usize),
}
