ghost use Rattle.std.specs.Prelude.{◌≡◌};
ghost use Rattle.il_edge.specs.Faults.{HasCause};
ghost use Rattle.il_edge.specs.Known.{SameTold};
ghost use Rattle.form_text.specs.Pieces.{Writes};
ghost use Rattle.report_text.specs.Refusal.{code_number, code_words, many_words, name_behind, refusal_text, words_text};

use form_text::put;
use il_core::{Code, Many, Refusal};
use il_edge::{Failed, Sink};
use itoa::Buffer;

fn number_of(code: &Code) -> &[u8]
    ensures { result.now ≡ code_number code.now }
{
    match code {
        Code::TooLong => b"01",
        Code::NotAscii => b"02",
        Code::Lexical => b"03",
        Code::Number => b"04",
        Code::Syntax => b"05",
        Code::Order => b"06",
        Code::Unmatched => b"07",
        Code::Twice => b"08",
        Code::Unknown => b"09",
        Code::Typing => b"10",
        Code::Access => b"11",
        Code::EmptyRange => b"12",
        Code::Wide => b"13",
        Code::TooMany(_) => b"14",
        Code::BadCall => b"16",
        Code::BadCertificate => b"17",
    }
}

fn words_of_many(many: &Many) -> &[u8]
    ensures { result.now ≡ many_words many.now }
{
    match many {
        Many::Procedures => b"too many procedures",
        Many::Lines => b"too many lines",
        Many::Places => b"too many places",
    }
}

fn words_of(code: &Code) -> &[u8]
    ensures { result.now ≡ code_words code.now }
{
    match code {
        Code::TooLong => b"text too long",
        Code::NotAscii => b"byte is not ASCII",
        Code::Lexical => b"no such token",
        Code::Number => b"number too large",
        Code::Syntax => b"statement has no form",
        Code::Order => b"statement out of order",
        Code::Unmatched => b"block or label unmatched",
        Code::Twice => b"name declared twice: ",
        Code::Unknown => b"name unknown: ",
        Code::Typing => b"wrong type",
        Code::Access => b"wrong mode",
        Code::EmptyRange => b"range is empty",
        Code::Wide => b"expression too wide",
        Code::TooMany(many) => words_of_many(many),
        Code::BadCall => b"call does not fit",
        Code::BadCertificate => b"certificate has no form",
    }
}

fn name_of(refusal: &Refusal) -> &[u8]
    ensures { result.now ≡ name_behind refusal.now.code refusal.now.name }
{
    match refusal.code {
        Code::Twice | Code::Unknown => match &refusal.name {
            Some(name) => name.as_bytes(),
            None => b"",
        },
        _ => b"",
    }
}

/// Writes the line of a refusal. `Failed` comes only where the sink's count of faults rose in this call, and then a
/// prefix of the line was written. It takes no memory and leaves what is settled as it was.
#[tactic(auto, unfolding(crate::specs::Refusal::refusal_text))]
pub fn put_refusal<K: Sink>(refusal: &Refusal, sink: &mut K) -> Result<(), Failed>
    ensures text { Writes (K.held sink.old) (K.held sink.new) result (refusal_text refusal.now) }
    ensures told { SameTold (K.held sink.old) (K.held sink.new) }
    ensures settled { K.settled sink.new ≡ K.settled sink.old }
    ensures cause { HasCause (K.faults sink.old) (K.faults sink.new) result }
{
    let mut place = Buffer::new();
    put(
        sink,
        &[
            b"malpas: E",
            number_of(&refusal.code),
            b" at byte ",
            place.format(refusal.place).as_bytes(),
            b": ",
            words_of(&refusal.code),
            name_of(refusal),
            b"\n",
        ],
    )
}

/// Writes the line that answers words that are not understood. `Failed` comes only where the sink's count of faults
/// rose in this call, and then a prefix of the line was written. It takes no memory and leaves what is settled as it
/// was.
#[tactic(auto, unfolding(crate::specs::Refusal::words_text))]
pub fn put_words<K: Sink>(sink: &mut K) -> Result<(), Failed>
    ensures text { Writes (K.held sink.old) (K.held sink.new) result words_text }
    ensures told { SameTold (K.held sink.old) (K.held sink.new) }
    ensures settled { K.settled sink.new ≡ K.settled sink.old }
    ensures cause { HasCause (K.faults sink.old) (K.faults sink.new) result }
{
    put(sink, &[b"malpas: words not understood\n"])
}
