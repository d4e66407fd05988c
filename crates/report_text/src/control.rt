ghost use Rattle.std.specs.Prelude.{◌≡◌, ◌++◌, codes, decimal};
ghost use Rattle.std.specs.List.{flat_map};
ghost use Rattle.control_flow.specs.declared.control.Shape.TheVariants.{TwoEntries};
ghost use Rattle.il_edge.specs.Faults.{HasCause};
ghost use Rattle.il_edge.specs.Known.{SameTold};
ghost use Rattle.form_text.specs.Lists.{numbered};
ghost use Rattle.form_text.specs.Pieces.{Writes};
ghost use Rattle.report_text.specs.Sections.{control_text, interval_text, level_text, loop_text, shape_text};

use crate::lists::{put_labelled, put_line};
use control_flow::{Control, Entries, LoopInfo, Shape};
use form_text::put;
use il_core::List;
use il_edge::{Failed, Sink};
use interval_reduce::{Derivation, Interval};
use itoa::Buffer;

#[tactic(auto, unfolding(crate::specs::Sections::loop_text))]
fn put_loop<K: Sink>(info: &LoopInfo, sink: &mut K) -> Result<(), Failed>
    ensures text { Writes (K.held sink.old) (K.held sink.new) result (loop_text info.now) }
    ensures told { SameTold (K.held sink.old) (K.held sink.new) }
    ensures settled { K.settled sink.new ≡ K.settled sink.old }
    ensures cause { HasCause (K.faults sink.old) (K.faults sink.new) result }
{
    put_line(b"LOOP ", info.head, sink)?;
    put_labelled(b": ", &info.members, sink)?;
    put_labelled(b" LEADING ", &info.leading, sink)?;
    put(sink, &[b"\n"])
}

fn put_loops<K: Sink>(loops: &[LoopInfo], sink: &mut K) -> Result<(), Failed>
    ensures text { Writes (K.held sink.old) (K.held sink.new) result (flat_map loop_text loops.now) }
    ensures told { SameTold (K.held sink.old) (K.held sink.new) }
    ensures settled { K.settled sink.new ≡ K.settled sink.old }
    ensures cause { HasCause (K.faults sink.old) (K.faults sink.new) result }
{
    for info in loops {
        match put_loop(info, sink) {
            Ok(()) => {}
            Err(failed) => return Err(failed),
        }
    }
    Ok(())
}

#[tactic(auto, unfolding(crate::specs::Sections::interval_text))]
fn put_interval<K: Sink>(interval: &Interval, sink: &mut K) -> Result<(), Failed>
    ensures text { Writes (K.held sink.old) (K.held sink.new) result (interval_text interval.now) }
    ensures told { SameTold (K.held sink.old) (K.held sink.new) }
    ensures settled { K.settled sink.new ≡ K.settled sink.old }
    ensures cause { HasCause (K.faults sink.old) (K.faults sink.new) result }
{
    put_line(b"INTERVAL ", interval.head, sink)?;
    put_labelled(b": ", &interval.members, sink)?;
    put(sink, &[b"\n"])
}

fn put_intervals<K: Sink>(intervals: &[Interval], sink: &mut K) -> Result<(), Failed>
    ensures text { Writes (K.held sink.old) (K.held sink.new) result (flat_map interval_text intervals.now) }
    ensures told { SameTold (K.held sink.old) (K.held sink.new) }
    ensures settled { K.settled sink.new ≡ K.settled sink.old }
    ensures cause { HasCause (K.faults sink.old) (K.faults sink.new) result }
{
    for interval in intervals {
        match put_interval(interval, sink) {
            Ok(()) => {}
            Err(failed) => return Err(failed),
        }
    }
    Ok(())
}

fn put_level_line<K: Sink>(number: usize, sink: &mut K) -> Result<(), Failed>
    ensures text { Writes (K.held sink.old) (K.held sink.new) result (codes "LEVEL " ++ decimal number ++ codes "\n") }
    ensures told { SameTold (K.held sink.old) (K.held sink.new) }
    ensures settled { K.settled sink.new ≡ K.settled sink.old }
    ensures cause { HasCause (K.faults sink.old) (K.faults sink.new) result }
{
    let mut digits = Buffer::new();
    put(sink, &[b"LEVEL ", digits.format(number).as_bytes(), b"\n"])
}

#[tactic(auto, unfolding(crate::specs::Sections::level_text))]
fn put_level<K: Sink>(number: usize, level: &List<Interval>, sink: &mut K) -> Result<(), Failed>
    ensures text { Writes (K.held sink.old) (K.held sink.new) result (level_text number level.now) }
    ensures told { SameTold (K.held sink.old) (K.held sink.new) }
    ensures settled { K.settled sink.new ≡ K.settled sink.old }
    ensures cause { HasCause (K.faults sink.old) (K.faults sink.new) result }
{
    put_level_line(number, sink)?;
    put_intervals(level.as_slice(), sink)
}

fn put_levels<K: Sink>(levels: &[List<Interval>], sink: &mut K) -> Result<(), Failed>
    ensures text { Writes (K.held sink.old) (K.held sink.new) result (numbered level_text 0 levels.now) }
    ensures told { SameTold (K.held sink.old) (K.held sink.new) }
    ensures settled { K.settled sink.new ≡ K.settled sink.old }
    ensures cause { HasCause (K.faults sink.old) (K.faults sink.new) result }
{
    for (at, level) in levels.iter().enumerate() {
        match put_level(at, level, sink) {
            Ok(()) => {}
            Err(failed) => return Err(failed),
        }
    }
    Ok(())
}

#[tactic(auto, unfolding(crate::specs::Sections::shape_text))]
fn put_entries<K: Sink>(entries: &Entries, sink: &mut K) -> Result<(), Failed>
    ensures text { Writes (K.held sink.old) (K.held sink.new) result (shape_text (TwoEntries entries.now)) }
    ensures told { SameTold (K.held sink.old) (K.held sink.new) }
    ensures settled { K.settled sink.new ≡ K.settled sink.old }
    ensures cause { HasCause (K.faults sink.old) (K.faults sink.new) result }
{
    put_labelled(b"SHAPE TWO ENTRIES\nCYCLE ", &entries.cycle, sink)?;
    put_labelled(b"\nFIRST ", &entries.first_path, sink)?;
    put_labelled(b"\nSECOND ", &entries.second_path, sink)?;
    put(sink, &[b"\n"])
}

#[tactic(auto, unfolding(crate::specs::Sections::shape_text))]
fn put_shape<K: Sink>(shape: &Shape, sink: &mut K) -> Result<(), Failed>
    ensures text { Writes (K.held sink.old) (K.held sink.new) result (shape_text shape.now) }
    ensures told { SameTold (K.held sink.old) (K.held sink.new) }
    ensures settled { K.settled sink.new ≡ K.settled sink.old }
    ensures cause { HasCause (K.faults sink.old) (K.faults sink.new) result }
{
    match shape {
        Shape::Reducible => put(sink, &[b"SHAPE REDUCIBLE\n"]),
        Shape::TwoEntries(entries) => put_entries(entries, sink),
    }
}

/// Writes the control section: the lines that are not reached and those that are stuck, the loops, the levels of the
/// reduction by intervals, and the shape.
#[tactic(auto, unfolding(crate::specs::Sections::control_text))]
pub(crate) fn put_control<K: Sink>(
    control: &Control,
    derivation: &Derivation,
    sink: &mut K,
) -> Result<(), Failed>
    ensures text { Writes (K.held sink.old) (K.held sink.new) result (control_text control.now derivation.now) }
    ensures told { SameTold (K.held sink.old) (K.held sink.new) }
    ensures settled { K.settled sink.new ≡ K.settled sink.old }
    ensures cause { HasCause (K.faults sink.old) (K.faults sink.new) result }
{
    put_labelled(b"CONTROL\nUNREACHABLE ", &control.unreachable, sink)?;
    put_labelled(b"\nSTUCK ", &control.stuck, sink)?;
    put(sink, &[b"\n"])?;
    put_loops(control.loops.as_slice(), sink)?;
    put_levels(derivation.levels.as_slice(), sink)?;
    put_shape(&control.shape, sink)
}
