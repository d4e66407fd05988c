/// The sections of a report that are to be written.
#[derive(Clone, Copy, PartialEq, Eq)]
pub struct Selection {
    /// The control structure and its reduction.
    pub control: bool,
    /// The use of variables.
    pub usage: bool,
    /// The flow of information.
    pub flow: bool,
    /// The slices.
    pub slice: bool,
    /// The path expression.
    pub paths: bool,
    /// The tables of the regions.
    pub semantic: bool,
    /// The test inputs of the rows.
    pub inputs: bool,
    /// The threats, with their verdicts.
    pub compliance: bool,
    /// The certificates of threats: what is said of those that were read, and those that were made.
    pub certificates: bool,
}
