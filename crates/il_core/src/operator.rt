/// The six relations of a comparison.
#[derive(Clone, Copy, Debug, PartialEq, Eq)]
pub enum Relation {
    /// `=`
    Eq,
    /// `/=`
    Ne,
    /// `<`
    Lt,
    /// `<=`
    Le,
    /// `>`
    Gt,
    /// `>=`
    Ge,
}

/// The operators with two sides.
#[derive(Clone, Copy, Debug, PartialEq, Eq)]
pub enum BinOp {
    /// `+`
    Add,
    /// `-`
    Sub,
    /// `*`
    Mul,
    /// `DIV`: the quotient of the division whose remainder is at least 0.
    Div,
    /// `MOD`: the remainder of that division.
    Mod,
    /// A comparison.
    Compare(Relation),
    /// `AND`, whose right side counts only where the left one is true.
    And,
    /// `OR`, whose right side counts only where the left one is false.
    Or,
}
