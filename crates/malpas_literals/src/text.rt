//! From the bytes of a source to the threats of its text.
ghost use Rattle.std.specs.Prelude.{◌≡◌, ◌≤◌, ℕ, List, length};
ghost use Rattle.il_inline.specs.Expanded.{whole_of};
ghost use Rattle.acceptance.specs.Acceptance.{Accepts};
ghost use Rattle.il_edge.specs.Known.{SameTold, Took};
ghost use Rattle.malpas_literals.specs.Answer.{text_limit, too_long, IsTextOf, FindsIn, Finds};

use crate::threats::{Threatened, all_threatened};
use acceptance::accept;
use cert_text::cut;
use il_core::{Code, List, NoMemory, Refusal, TextEnd};
use il_edge::{ReadEnd, Source, read_all};
use il_inline::Expanded;
use std::alloc::Global;

/// The greatest number of bytes of an input.
const TEXT_LIMIT: usize = 1_048_576;

/// What is found of an input.
#[derive(Drop)]
pub enum Found {
    /// Its text is accepted: the procedures, with each call expanded, and their threats.
    Threats(List<Threatened>),
    /// It is refused.
    Refused(Refusal),
    /// Nothing: the source failed.
    ReadFault,
    /// Nothing: memory ran out.
    NoMemory,
}

/// The refusal of an input with too many bytes, at the first byte too many.
fn too_long_refusal() -> Refusal
    ensures { result ≡ too_long }
{
    Refusal {
        code: Code::TooLong,
        place: TEXT_LIMIT,
        name: None,
    }
}

/// The text of an input: what stands before the first line `%%`, or all of it.
fn text_of_input(input: &[u8]) -> &[u8]
    ensures text { IsTextOf input.now result.now }
    ensures short { length result.now ≤ length input.now }
{
    match cut(input) {
        None => input,
        Some(place) => &input[..place],
    }
}

/// What is found of an accepted text.
fn find_threats(alloc: Global, text: &Expanded) -> Found
    ensures { (bytes : List ℕ) → Accepts bytes (whole_of text.now) → FindsIn bytes result }
{
    match all_threatened(alloc, &text.text) {
        Ok(all) => Found::Threats(all),
        Err(NoMemory) => Found::NoMemory,
    }
}

/// What is found of a text.
fn find_in_text(alloc: Global, text: &[u8]) -> Found
    requires { length text.now ≤ text_limit }
    ensures { FindsIn text.now result }
{
    match accept(alloc, text) {
        Ok(expanded) => find_threats(alloc, &expanded),
        Err(TextEnd::Refused(refusal)) => Found::Refused(refusal),
        Err(TextEnd::NoMemory) => Found::NoMemory,
    }
}

/// What is found of the bytes of a source, which is read to its end.
pub(crate) fn find<S: Source>(alloc: Global, source: &mut S) -> Found
    ensures found { Finds (S.left source.old) (S.left source.new) (S.faults source.old) (S.faults source.new) result }
    ensures taken { Took (S.left source.old) (S.left source.new) }
    ensures told { SameTold (S.left source.old) (S.left source.new) }
    ensures later { S.faults source.old ≤ S.faults source.new }
{
    match read_all(alloc, source, TEXT_LIMIT) {
        Ok(input) => find_in_text(alloc, text_of_input(input.as_slice())),
        Err(ReadEnd::Fault) => Found::ReadFault,
        Err(ReadEnd::TooLong) => Found::Refused(too_long_refusal()),
        Err(ReadEnd::NoMemory) => Found::NoMemory,
    }
}
