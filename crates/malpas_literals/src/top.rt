ghost use Rattle.std.specs.Prelude.{◌≡◌, ◌≤◌};
ghost use Rattle.il_edge.specs.Known.{SameTold, Took};
ghost use Rattle.malpas_literals.specs.Answer.{Finds, AnswersBy, IsNothing};

use crate::sending::send;
use crate::text::{Found, find};
use il_edge::{Sink, Source};
use std::alloc::Global;

/// What the program did.
#[derive(Drop)]
pub struct Outcome {
    /// 0 where the listing was written, 2 where the text was refused, 3 where the source failed, 4 where the sink failed,
    /// 5 where memory ran out.
    pub status: u8,
    /// What was found of the input, also where the sink failed.
    pub found: Found,
}

/// All that the program does. It reads the input of `source` to its end, takes what stands before its first line `%%` as
/// the text, and accepts it or finds its first refusal, whose line it writes to `sink`. The calls of an accepted text are
/// expanded. It finds the threats of each procedure, so expanded, and then writes the listing: each procedure with its
/// places, and of each open threat the number, the region and the literals. It flushes once, behind all. The cost is that
/// of accepting the text and of finding its threats, besides reading and writing, which are linear in their bytes.
pub fn list_literals<S: Source, K: Sink>(alloc: Global, source: &mut S, sink: &mut K) -> Outcome
    ensures found { Finds (S.left source.old) (S.left source.new) (S.faults source.old) (S.faults source.new) result.found }
    ensures sent { AnswersBy (K.held sink.old) (K.held sink.new) (K.settled sink.old) (K.settled sink.new)
        (K.faults sink.old) (K.faults sink.new) result.found result.status }
    ensures silent { IsNothing result.found → sink.new ≡ sink.old }
    ensures taken { Took (S.left source.old) (S.left source.new) }
    ensures source { SameTold (S.left source.old) (S.left source.new) × (S.faults source.old ≤ S.faults source.new) }
    ensures sink { SameTold (K.held sink.old) (K.held sink.new) × (K.faults sink.old ≤ K.faults sink.new) }
{
    let found = find(alloc, source);
    let status = send(&found, sink);
    Outcome { status, found }
}
