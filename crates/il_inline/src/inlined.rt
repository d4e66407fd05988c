use il_called::{CallSpan, Origin};
use il_core::{CheckedProc, List};

/// A procedure whose calls are expanded.
#[derive(Drop)]
pub struct Inlined {
    /// The procedure without calls.
    pub proc: CheckedProc,
    /// The written line from which each of its lines comes.
    pub origins: List<Origin>,
    /// The lines of each of its own calls.
    pub spans: List<CallSpan>,
}
