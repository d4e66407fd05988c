use crate::selection::Selection;

/// What the words of a command line ask for.
#[derive(Clone, Copy, PartialEq, Eq)]
pub struct Request {
    /// The sections of a report that are to be written.
    pub selection: Selection,
    /// The number, from 1 to 200, of the text that is to be made; without one a text is to be read.
    pub generate: Option<u8>,
}
