ghost use Rattle.std.specs.Prelude.{◌≡◌, ◌+◌, ◌≤◌, length, IfOk, OnOk, OnErr, IfSome, IsErrOf};
ghost use Rattle.il_edge.specs.Faults.{Rose, HasCause};
ghost use Rattle.il_edge.specs.Known.{SameTold, IsAtEnd, Took, TookMore, Appends, AppendsPrefix};

use crate::{Failed, Sink, Source};
use std::alloc::Global;
use std::error::Error;
use std::fmt;

/// Why a text could not be read whole.
#[derive(Clone, Copy, Debug, PartialEq, Eq)]
pub enum ReadEnd {
    /// The source failed.
    Fault,
    /// There are more bytes than the limit allows.
    TooLong,
    /// Memory ran out.
    NoMemory,
}

impl fmt::Display for ReadEnd {
    fn fmt<W: fmt::Write>(&self, f: &mut fmt::Formatter<W>) -> fmt::Result {
        match self {
            ReadEnd::Fault => write!(f, "the source failed"),
            ReadEnd::TooLong => write!(f, "too many bytes"),
            ReadEnd::NoMemory => write!(f, "out of memory"),
        }
    }
}

impl Error for ReadEnd {}

/// All bytes of `source` up to the end of input, of which there are at most `limit`. `Fault` comes only where the
/// source's count of faults rose in this call, `TooLong` only where more than `limit` bytes were taken; after these
/// and `NoMemory` the bytes taken so far have gone from the source. It makes at most `limit + 2` reads.
pub fn read_all<S: Source>(alloc: Global, source: &mut S, limit: usize) -> Result<Vec<u8>, ReadEnd>
    ensures all { IfOk result (λ bytes. IfSome (S.left source.old) (λ left. bytes.items ≡ left)) }
    ensures end { OnOk result (IsAtEnd (S.left source.new)) }
    ensures short { IfOk result (λ bytes. length bytes.items ≤ limit) }
    ensures taken { Took (S.left source.old) (S.left source.new) }
    ensures told { SameTold (S.left source.old) (S.left source.new) }
    ensures too_long { IsErrOf result ReadEnd.TooLong → TookMore limit (S.left source.old) (S.left source.new) }
    ensures fault { IsErrOf result ReadEnd.Fault → Rose (S.faults source.old) (S.faults source.new) }
    ensures later { S.faults source.old ≤ S.faults source.new }
    ensures reads { S.reads source.new ≤ S.reads source.old + limit + 2 }
{
    let mut taken = Vec::new(alloc);
    let mut piece = [0u8; 4096];
    while taken.len() <= limit {
        match source.read(&mut piece) {
            Err(Failed) => return Err(ReadEnd::Fault),
            Ok(0) => return Ok(taken),
            Ok(count) => match taken.extend_from_slice(&piece[..count]) {
                Ok(()) => {}
                Err(_) => return Err(ReadEnd::NoMemory),
            },
        }
    }
    Err(ReadEnd::TooLong)
}

/// Writes all of `bytes` to `sink`. It takes no memory and leaves what is settled as it was. After `Failed`, which
/// comes only where the sink's count of faults rose in this call, a prefix of `bytes` was written.
pub fn write_all<K: Sink>(sink: &mut K, bytes: &[u8]) -> Result<(), Failed>
    ensures all { OnOk result (Appends (K.held sink.old) (K.held sink.new) bytes.now) }
    ensures part { OnErr result (AppendsPrefix (K.held sink.old) (K.held sink.new) bytes.now) }
    ensures told { SameTold (K.held sink.old) (K.held sink.new) }
    ensures settled { K.settled sink.new ≡ K.settled sink.old }
    ensures cause { HasCause (K.faults sink.old) (K.faults sink.new) result }
{
    let mut rest = bytes;
    while !rest.is_empty() {
        match sink.write(rest) {
            Ok(count) => {
                let (_, after) = rest.split_at(count);
                rest = after;
            }
            Err(Failed) => return Err(Failed),
        }
    }
    Ok(())
}
