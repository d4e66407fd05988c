/// What is known of the use of a variable.
#[derive(Clone, Copy, Debug, PartialEq, Eq)]
pub struct UseRow {
    /// The variable.
    pub place: usize,
    /// On some walk it is read before any write.
    pub read_first: bool,
    /// On some walk it is written twice with no read between.
    pub overwritten: bool,
    /// On some walk to the last line its last event is a write.
    pub last_write: bool,
    /// It is read on no walk.
    pub never_read: bool,
    /// It is written on no walk.
    pub never_written: bool,
    /// On some walk to the last line it is never written.
    pub end_unwritten: bool,
}
