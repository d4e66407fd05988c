use crate::{List, Name};

/// What a share counts: a quantity that is at least 0 in each input that meets the literals.
#[derive(Clone, Copy, Debug, PartialEq, Eq)]
pub enum Item {
    /// The parts of the literal at this position, up to the most that it allows.
    Up(usize),
    /// The parts of the literal at this position, from the least that it allows.
    Down(usize),
    /// The literal at this position, which never holds.
    Never(usize),
    /// This place, from the least value of its range.
    Low(usize),
    /// This place, up to the greatest value of its range.
    High(usize),
    /// The variable of this OLD copy, less the copy, at line 0.
    OldUp(usize),
    /// This OLD copy less its variable, at line 0.
    OldDown(usize),
}

/// An item as often as a factor says.
#[derive(Clone, Copy, Debug, PartialEq, Eq)]
pub struct Share {
    /// What is counted.
    pub item: Item,
    /// How often: 1 to 65,536.
    pub times: u32,
}

/// A certificate that no input meets the literals of a threat.
#[derive(Debug, Drop)]
pub enum Cert {
    /// 1 to 128 shares, whose sum is a negative number.
    Sum(List<Share>),
    /// The `/=` at this position is split: a certificate for `<` in its place, and one for `>`.
    Split(usize, Box<Cert>, Box<Cert>),
}

/// A certificate with the threat that it is for.
#[derive(Debug, Drop)]
pub struct NamedCert {
    /// The name of the procedure.
    pub procedure: Name,
    /// The number of the threat in its procedure, counted from 1.
    pub threat: usize,
    /// What shows that no input meets the threat's literals.
    pub body: Cert,
}
