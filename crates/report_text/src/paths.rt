ghost use Rattle.std.specs.Prelude.{◌≡◌, ◌++◌, codes, decimal};
ghost use Rattle.il_edge.specs.Faults.{HasCause};
ghost use Rattle.il_edge.specs.Known.{SameTold};
ghost use Rattle.form_text.specs.Lists.{numbered};
ghost use Rattle.form_text.specs.Pieces.{Writes};
ghost use Rattle.report_text.specs.Sections.{arc_text, def_text, paths_text, ref_text};

use flow_graph::Arc;
use form_text::put;
use il_edge::{Failed, Sink};
use itoa::Buffer;
use path_expr::{Def, PathReport, Ref};

/// The letter or digit of a reference, and the digits of its number behind it.
#[tactic(auto, unfolding(crate::specs::Sections::ref_text))]
fn parts_of<'a>(reference: &Ref, digits: &'a mut Buffer) -> (&'a [u8], &'a [u8])
    ensures { result.0.now ++ result.1.now ≡ ref_text reference.now }
{
    match reference {
        Ref::Zero => (b"0", b""),
        Ref::One => (b"1", b""),
        Ref::Arc(number) => (b"a", digits.format(*number).as_bytes()),
        Ref::Def(number) => (b"E", digits.format(*number).as_bytes()),
    }
}

#[tactic(auto, unfolding(crate::specs::Sections::arc_text))]
fn put_arc<K: Sink>(number: usize, arc: &Arc, sink: &mut K) -> Result<(), Failed>
    ensures text { Writes (K.held sink.old) (K.held sink.new) result (arc_text number arc.now) }
    ensures told { SameTold (K.held sink.old) (K.held sink.new) }
    ensures settled { K.settled sink.new ≡ K.settled sink.old }
    ensures cause { HasCause (K.faults sink.old) (K.faults sink.new) result }
{
    let mut digits = Buffer::new();
    let mut tail = Buffer::new();
    let mut head = Buffer::new();
    put(
        sink,
        &[
            b"ARC a",
            digits.format(number).as_bytes(),
            b" L",
            tail.format(arc.tail).as_bytes(),
            b" L",
            head.format(arc.head).as_bytes(),
            b"\n",
        ],
    )
}

/// Writes the definition of this number that joins two references by a sign.
fn put_pair<K: Sink>(
    number: usize,
    left: &Ref,
    sign: &[u8],
    right: &Ref,
    sink: &mut K,
) -> Result<(), Failed>
    ensures text { Writes (K.held sink.old) (K.held sink.new) result (codes "E" ++ decimal number ++ codes " = " ++ (ref_text left.now ++ sign.now ++ ref_text right.now) ++ codes "\n") }
    ensures told { SameTold (K.held sink.old) (K.held sink.new) }
    ensures settled { K.settled sink.new ≡ K.settled sink.old }
    ensures cause { HasCause (K.faults sink.old) (K.faults sink.new) result }
{
    let mut digits = Buffer::new();
    let mut left_digits = Buffer::new();
    let mut right_digits = Buffer::new();
    let (left_letter, left_number) = parts_of(left, &mut left_digits);
    let (right_letter, right_number) = parts_of(right, &mut right_digits);
    put(
        sink,
        &[
            b"E",
            digits.format(number).as_bytes(),
            b" = ",
            left_letter,
            left_number,
            sign,
            right_letter,
            right_number,
            b"\n",
        ],
    )
}

/// Writes the definition of this number that stars a reference.
fn put_star<K: Sink>(number: usize, inner: &Ref, sink: &mut K) -> Result<(), Failed>
    ensures text { Writes (K.held sink.old) (K.held sink.new) result (codes "E" ++ decimal number ++ codes " = " ++ (ref_text inner.now ++ codes " *") ++ codes "\n") }
    ensures told { SameTold (K.held sink.old) (K.held sink.new) }
    ensures settled { K.settled sink.new ≡ K.settled sink.old }
    ensures cause { HasCause (K.faults sink.old) (K.faults sink.new) result }
{
    let mut digits = Buffer::new();
    let mut inner_digits = Buffer::new();
    let (inner_letter, inner_number) = parts_of(inner, &mut inner_digits);
    put(
        sink,
        &[
            b"E",
            digits.format(number).as_bytes(),
            b" = ",
            inner_letter,
            inner_number,
            b" *\n",
        ],
    )
}

#[tactic(auto, unfolding(crate::specs::Sections::def_text))]
fn put_def<K: Sink>(number: usize, def: &Def, sink: &mut K) -> Result<(), Failed>
    ensures text { Writes (K.held sink.old) (K.held sink.new) result (def_text number def.now) }
    ensures told { SameTold (K.held sink.old) (K.held sink.new) }
    ensures settled { K.settled sink.new ≡ K.settled sink.old }
    ensures cause { HasCause (K.faults sink.old) (K.faults sink.new) result }
{
    match def {
        Def::Sum(left, right) => put_pair(number, left, b" + ", right, sink),
        Def::Product(left, right) => put_pair(number, left, b" . ", right, sink),
        Def::Star(inner) => put_star(number, inner, sink),
    }
}

/// Writes the reference to all paths.
fn put_whole<K: Sink>(whole: &Ref, sink: &mut K) -> Result<(), Failed>
    ensures text { Writes (K.held sink.old) (K.held sink.new) result (codes "ALL = " ++ ref_text whole.now ++ codes "\n") }
    ensures told { SameTold (K.held sink.old) (K.held sink.new) }
    ensures settled { K.settled sink.new ≡ K.settled sink.old }
    ensures cause { HasCause (K.faults sink.old) (K.faults sink.new) result }
{
    let mut digits = Buffer::new();
    let (letter, number) = parts_of(whole, &mut digits);
    put(sink, &[b"ALL = ", letter, number, b"\n"])
}

/// Writes the lines of the arcs, which are numbered from 1.
fn put_arcs<K: Sink>(arcs: &[Arc], sink: &mut K) -> Result<(), Failed>
    ensures text { Writes (K.held sink.old) (K.held sink.new) result (numbered arc_text 1 arcs.now) }
    ensures told { SameTold (K.held sink.old) (K.held sink.new) }
    ensures settled { K.settled sink.new ≡ K.settled sink.old }
    ensures cause { HasCause (K.faults sink.old) (K.faults sink.new) result }
{
    for (at, arc) in arcs.iter().enumerate() {
        match put_arc(at + 1, arc, sink) {
            Ok(()) => {}
            Err(failed) => return Err(failed),
        }
    }
    Ok(())
}

/// Writes the lines of the definitions, which are numbered from 1.
fn put_defs<K: Sink>(defs: &[Def], sink: &mut K) -> Result<(), Failed>
    ensures text { Writes (K.held sink.old) (K.held sink.new) result (numbered def_text 1 defs.now) }
    ensures told { SameTold (K.held sink.old) (K.held sink.new) }
    ensures settled { K.settled sink.new ≡ K.settled sink.old }
    ensures cause { HasCause (K.faults sink.old) (K.faults sink.new) result }
{
    for (at, def) in defs.iter().enumerate() {
        match put_def(at + 1, def, sink) {
            Ok(()) => {}
            Err(failed) => return Err(failed),
        }
    }
    Ok(())
}

/// Writes the section on paths: the arcs, the definitions and the reference to all paths. `Failed` comes only where the
/// sink's count of faults rose in this call, and then a prefix of the section was written. It costs time linear in the
/// text.
pub(crate) fn put_paths<K: Sink>(
    arcs: &[Arc],
    paths: &PathReport,
    sink: &mut K,
) -> Result<(), Failed>
    ensures text { Writes (K.held sink.old) (K.held sink.new) result (paths_text arcs.now paths.now) }
    ensures told { SameTold (K.held sink.old) (K.held sink.new) }
    ensures settled { K.settled sink.new ≡ K.settled sink.old }
    ensures cause { HasCause (K.faults sink.old) (K.faults sink.new) result }
{
    put(sink, &[b"PATHS\n"])?;
    put_arcs(arcs, sink)?;
    put_defs(paths.defs.as_slice(), sink)?;
    put_whole(&paths.whole, sink)
}
