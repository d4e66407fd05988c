//! The expansion of a text.
ghost use Rattle.std.specs.Prelude.{◌≡◌, ◌≤◌, ◌-◌, ◌++◌, length, map, drop, IfOk};
ghost use Rattle.il_core.specs.Checked.{IsChecked};
ghost use Rattle.il_called.specs.Called.{written_of, procedure_of, called_of};
ghost use Rattle.il_called.specs.Expansion.{procedure_in, expansion_of, callees_of};
ghost use Rattle.il_inline.specs.Calls.{AllCall};
ghost use Rattle.il_inline.specs.Expanded.{IsExpanded, IsExpandedText};
ghost use Rattle.il_inline.specs.Fits.{AreShort};
ghost use Rattle.il_inline.specs.Held.{callees_held, expansion_held, HaveNames};

use crate::calls::lines_by;
use crate::expanded::Expanded;
use crate::inlined::Inlined;
use crate::layout::{Layout, layout_of};
use crate::origins::{origins_of, spans_by};
use crate::places::push_all_places;
use crate::renumbering::Renumbering;
use crate::variables::variables_in;
use il_called::{CalledLine, CalledProc, CalledText};
use il_core::{CheckedProc, CheckedText, List, Name, NoMemory, Place};
use std::alloc::Global;

/// How the places of a procedure with so many variables are numbered anew: its OLD copies stand behind the places that its
/// calls bring.
fn renumbering_of(layout: &Layout, variables: usize) -> Renumbering
    requires { variables ≤ layout.now.end.base }
    ensures { result ≡ record { kept = variables; shift = layout.now.end.base - variables } }
{
    Renumbering {
        kept: variables,
        shift: layout.end.base - variables,
    }
}

/// Adds the places behind so many variables, which are OLD copies.
fn push_copies(places: &[Place], variables: usize, out: &mut Vec<Place>) -> Result<(), NoMemory>
    requires { variables ≤ length places.now }
    ensures { IfOk result (λ _. out.new.items ≡ out.old.items ++ drop variables places.now) }
{
    out.extend_from_slice(&places[variables..])?;
    Ok(())
}

/// The expansion of the procedure that comes next, over those that are expanded. Linear in the expansion.
fn expand_procedure(
    alloc: Global,
    written: &[CalledProc],
    inlined: &[Inlined],
    name: Name,
    places: &[Place],
    lines: &[CalledLine],
) -> Result<Inlined, NoMemory>
    requires sizes { length inlined.now ≤ length written.now }
    requires calls { AllCall (callees_held written.now inlined.now) (map written_of lines.now) }
    requires checked { IsChecked (procedure_in (expansion_of (callees_held written.now inlined.now) (length inlined.now) (record { name = name; places = places.now; lines = map written_of lines.now }))) }
    requires short { AreShort (expansion_of (callees_held written.now inlined.now) (length inlined.now) (record { name = name; places = places.now; lines = map written_of lines.now })).places }
    ensures expansion { IfOk result (λ x. expansion_held x ≡ expansion_of (callees_held written.now inlined.now) (length inlined.now) (record { name = name; places = places.now; lines = map written_of lines.now })) }
    ensures name { IfOk result (λ x. x.proc.name ≡ name) }
{
    let mut all = variables_in(alloc, places)?;
    let variables = all.len();
    let layout = layout_of(alloc, written, inlined, variables, lines)?;
    push_all_places(alloc, inlined, &layout, lines, &mut all)?;
    push_copies(places, variables, &mut all)?;
    let under = renumbering_of(&layout, variables);
    let made = lines_by(alloc, written, inlined, places, under, &layout, lines)?;
    let origins = origins_of(alloc, written, inlined, lines)?;
    let spans = spans_by(alloc, &layout, lines)?;
    let proc = CheckedProc::new(name, List::from_vec(all), made);
    Ok(Inlined {
        proc,
        origins,
        spans,
    })
}

/// The expansions of the procedures of a text.
fn expand_procedures(alloc: Global, text: &CalledText) -> Result<Vec<Inlined>, NoMemory>
    ensures callees { IfOk result (λ xs. callees_held text.now.procs xs.items ≡ callees_of (map procedure_of text.now.procs)) }
    ensures size { IfOk result (λ xs. length xs.items ≡ length text.now.procs) }
    ensures names { IfOk result (λ xs. HaveNames text.now.procs xs.items) }
{
    let written = text.procs().as_slice();
    let mut inlined = Vec::new(alloc);
    for proc in written {
        let next = expand_procedure(
            alloc,
            written,
            inlined.as_slice(),
            proc.name,
            proc.places.as_slice(),
            proc.lines.as_slice(),
        )?;
        inlined.push(next)?;
    }
    Ok(inlined)
}

/// The text that a text with calls stands for. Each call becomes assignments that give the callee's variables their first
/// values, the argument for IN and INOUT and the least value for OUT and LOCAL, and its OLD copies those of their variables;
/// then the callee's own lines, already expanded, in which its precondition and its postcondition are asserted and RETURN goes
/// to the latter; then assignments that hand its INOUT and OUT parameters back. The callee's places become LOCAL places of
/// the caller. With it come the written line from which each line comes, and the lines of each call. The only error is
/// `NoMemory`. Linear in the expanded text.
///
/// This is the copy rule by which Algol 60 defines a call of a procedure (Naur and others, 1963), with parameters handed over
/// by value and back by result.
pub fn expand(alloc: Global, text: &CalledText) -> Result<Expanded, NoMemory>
    ensures expansion { IfOk result (IsExpanded (called_of text.now)) }
    ensures fits { IfOk result IsExpandedText }
{
    let inlined = expand_procedures(alloc, text)?;
    let mut procs = List::new(alloc);
    let mut origins = List::new(alloc);
    let mut spans = List::new(alloc);
    for Inlined {
        proc,
        origins: lines,
        spans: calls,
    } in inlined {
        procs.push(proc)?;
        origins.push(lines)?;
        spans.push(calls)?;
    }
    Ok(Expanded {
        text: CheckedText::new(text.title(), procs, text.profile()),
        origins,
        spans,
    })
}
