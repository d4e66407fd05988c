ghost use Rattle.std.specs.Prelude.{◌≡◌};
ghost use Rattle.request.specs.Reading.{after_word, begun, request_of, selection_of, told, with_section};

use crate::number::{joined_number, number_of};
use crate::section::{Section, section_of};
use crate::selection::Selection;
use crate::spelt::Request;

/// What words tell of the number of a text that is to be made.
#[derive(Clone, Copy)]
pub(crate) enum Number {
    /// No word speaks of it.
    Untold,
    /// The next word is to be it.
    Due,
    Told(u8),
}

/// What words ask for.
#[derive(Clone, Copy)]
pub(crate) struct Asked {
    /// The sections that they name.
    pub sections: Selection,
    pub number: Number,
}

/// No section.
const NONE: Selection = Selection {
    control: false,
    usage: false,
    flow: false,
    slice: false,
    paths: false,
    semantic: false,
    inputs: false,
    compliance: false,
    certificates: false,
};

/// The six reports: each section but the slices, the test inputs and the certificates.
const SIX: Selection = Selection {
    control: true,
    usage: true,
    flow: true,
    slice: false,
    paths: true,
    semantic: true,
    inputs: false,
    compliance: true,
    certificates: false,
};

/// What no words ask for.
pub(crate) const NOTHING: Asked = Asked {
    sections: NONE,
    number: Number::Untold,
};

fn with_section(sections: Selection, section: Section) -> Selection
    ensures { result ≡ with_section sections section }
{
    let mut sections = sections;
    match section {
        Section::Control => sections.control = true,
        Section::Usage => sections.usage = true,
        Section::Flow => sections.flow = true,
        Section::Slice => sections.slice = true,
        Section::Paths => sections.paths = true,
        Section::Semantic => sections.semantic = true,
        Section::Inputs => sections.inputs = true,
        Section::Compliance => sections.compliance = true,
        Section::Certificates => sections.certificates = true,
    }
    sections
}

/// What is asked once a number is told, if it is one.
fn told(sections: Selection, number: Option<u8>) -> Option<Asked>
    ensures { result ≡ told sections number }
{
    match number {
        Some(number) => Some(Asked {
            sections,
            number: Number::Told(number),
        }),
        None => None,
    }
}

/// What is asked behind a word that is to bring a number.
fn begun(sections: Selection, word: &str) -> Option<Asked>
    ensures { result ≡ begun sections word.now }
{
    if word == "--generate" {
        Some(Asked {
            sections,
            number: Number::Due,
        })
    } else {
        told(sections, joined_number(word))
    }
}

/// What is asked behind one more word, if it can stand there.
pub(crate) fn after_word(asked: Asked, word: &str) -> Option<Asked>
    ensures { result ≡ after_word asked word.now }
{
    if let Number::Due = asked.number {
        return told(asked.sections, number_of(word));
    }
    match (section_of(word), asked.number) {
        (Some(section), number) => Some(Asked {
            sections: with_section(asked.sections, section),
            number,
        }),
        (None, Number::Untold) => begun(asked.sections, word),
        (None, _) => None,
    }
}

/// The sections that are named, or the six reports where none is.
fn selection_of(sections: Selection) -> Selection
    ensures { result ≡ selection_of sections }
{
    if sections == NONE { SIX } else { sections }
}

/// The request that is asked for, unless a number is still due.
pub(crate) fn request_of(asked: Asked) -> Option<Request>
    ensures { result ≡ request_of asked }
{
    let selection = selection_of(asked.sections);
    match asked.number {
        Number::Untold => Some(Request {
            selection,
            generate: None,
        }),
        Number::Told(number) => Some(Request {
            selection,
            generate: Some(number),
        }),
        Number::Due => None,
    }
}
