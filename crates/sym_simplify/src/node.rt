/// The number of a normal term among those of a [`Forms`](crate::Forms).
#[derive(Clone, Copy, Debug, PartialEq, Eq, Hash)]
pub struct FormId {
    /// The position, counted from 0.
    pub index: usize,
}

/// An atom whose sides are numbered.
#[derive(Clone, Copy, PartialEq, Eq, Hash)]
pub enum FormAtom {
    /// The value of a place.
    Var(usize),
    /// A product of two terms, the lesser first.
    Mul(FormId, FormId),
    /// A quotient.
    Div(FormId, FormId),
    /// A remainder.
    Mod(FormId, FormId),
}

/// An atom as often as the coefficient says.
#[derive(Clone, Copy, PartialEq, Eq, Hash)]
pub struct FormPart {
    /// How often.
    pub coefficient: i128,
    /// What.
    pub atom: FormAtom,
}

/// A normal term, cell by cell: the first part before the rest, or the constant at the end.
#[derive(Clone, Copy, PartialEq, Eq, Hash)]
pub enum FormNode {
    /// The constant.
    Constant(i128),
    /// A part before a normal term.
    More(FormPart, FormId),
}
