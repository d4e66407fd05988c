use il_called::{CallSpan, Origin};
use il_core::{CheckedText, List};

/// A text whose calls are expanded.
#[derive(Drop)]
pub struct Expanded {
    /// The text without calls.
    pub text: CheckedText,
    /// For each procedure the written line from which each of its lines comes.
    pub origins: List<List<Origin>>,
    /// For each procedure the lines of each of its own calls.
    pub spans: List<List<CallSpan>>,
}
