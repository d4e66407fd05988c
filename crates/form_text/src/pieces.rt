ghost use Rattle.form_text.specs.Pieces.{joined, Puts};

use il_edge::{Failed, Sink, write_all};

/// Writes the pieces one after the other. `Failed` comes only where the sink's count of faults rose in this call, and then
/// a prefix of them was written.
pub fn put<K: Sink>(sink: &mut K, pieces: &[&[u8]]) -> Result<(), Failed>
    ensures { Puts K.held K.settled K.faults sink.old sink.new result (joined pieces.now) }
{
    for piece in pieces {
        match write_all(sink, piece) {
            Ok(()) => {}
            Err(failed) => return Err(failed),
        }
    }
    Ok(())
}
