use il_core::{Halt, List};
use sym_simplify::LitForm;

/// What is known of a threat.
#[derive(Debug, Drop)]
pub enum Verdict {
    /// It is plainly refuted: no input of its region takes it.
    Refuted,
    /// This input of its region takes it, as stepping the lines shows.
    Shown(List<i64>),
    /// Its least input does not take it: the place of its first literal that is hard, or a `/=` outside the core.
    Open(usize),
}

/// A long path of a region that stops at a failed assertion, a failed postcondition, a division by zero or a value out
/// of range, behind the opening of its region.
#[derive(Debug, Drop)]
pub struct Threat {
    /// The first line of its region.
    pub region: usize,
    /// Its decisions.
    pub path: List<bool>,
    /// The forms of its literals.
    pub literals: List<LitForm>,
    /// Where it stops.
    pub stop: Halt,
    /// What is known of it.
    pub verdict: Verdict,
}
