ghost use Rattle.std.specs.Prelude.{◌≡◌, ◌+◌, ◌≤◌, IfOk, IfSome, length};
ghost use Rattle.il_core.specs.Text.{text_of};
ghost use Rattle.malpas.specs.Input.{text_limit, text_before, names_in, IsCut, InputGives, BehindGives, OneInput};

use acceptance::{accept, one_answer};
use cert_text::{MARK_LEN, cut, one_reading, read_certs};
use il_core::{CheckedText, List, Name, NamedCert, NoMemory, TextEnd};
use il_inline::Expanded;
use std::alloc::Global;

/// What an accepted input holds.
#[derive(Drop)]
pub(crate) struct Input {
    /// Its text, with each call expanded.
    pub(crate) text: Expanded,
    /// The certificates behind the text.
    pub(crate) certs: List<NamedCert>,
}

/// Where an input is cut: at its first line that is `%%`, where certificates are asked for.
fn mark_of(input: &[u8], certificates: bool) -> Option<usize>
    ensures cut { IsCut certificates input.now result }
    ensures within { IfSome result (λ place. place + 3 ≤ length input.now) }
{
    if certificates { cut(input) } else { None }
}

/// The text of an input that is cut there.
fn text_before(mark: Option<usize>, input: &[u8]) -> &[u8]
    requires { IfSome mark (λ place. place + 3 ≤ length input.now) }
    ensures { result.now ≡ text_before mark input.now }
{
    match mark {
        None => input,
        Some(place) => &input[..place],
    }
}

/// The names of a text's procedures, in order.
fn names_of(alloc: Global, text: &CheckedText) -> Result<Vec<Name>, NoMemory>
    ensures { IfOk result (λ names. names.items ≡ names_in (text_of text.now)) }
{
    let mut names = Vec::new(alloc);
    for proc in text.procs().as_slice() {
        names.push(proc.name())?;
    }
    Ok(names)
}

/// The certificates behind a text, in an input that is cut there.
fn certs_behind(
    alloc: Global,
    text: &CheckedText,
    mark: Option<usize>,
    input: &[u8],
) -> Result<List<NamedCert>, TextEnd>
    requires short { length input.now ≤ text_limit }
    requires within { IfSome mark (λ place. place + 3 ≤ length input.now) }
    ensures { BehindGives (text_of text.now) mark input.now result }
{
    let Some(place) = mark else {
        return Ok(List::new(alloc));
    };
    let names = match names_of(alloc, text) {
        Ok(names) => names,
        Err(NoMemory) => return Err(TextEnd::NoMemory),
    };
    let offset = place + MARK_LEN;
    read_certs(alloc, &input[offset..], offset, names.as_slice())
}

/// What an input holds: its expanded text and, where they are asked for, the certificates behind it; or its first
/// refusal.
pub(crate) fn read_input(alloc: Global, input: &[u8], certificates: bool) -> Result<Input, TextEnd>
    requires { length input.now ≤ text_limit }
    ensures { InputGives certificates input.now result }
{
    let mark = mark_of(input, certificates);
    match accept(alloc, text_before(mark, input)) {
        Err(end) => Err(end),
        Ok(text) => match certs_behind(alloc, &text.text, mark, input) {
            Err(end) => Err(end),
            Ok(certs) => Ok(Input { text, certs }),
        },
    }
}

/// No input has two answers: no two expanded texts or lists of certificates, no text and a refusal, no two refusals.
/// This law costs nothing.
pub(crate) fn one_input()
    ensures { OneInput }
{
    one_answer();
    one_reading();
}
