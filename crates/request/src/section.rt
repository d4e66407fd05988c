ghost use Rattle.std.specs.Prelude.{◌≡◌};
ghost use Rattle.request.specs.Reading.{section_of};

/// A section of a report that a word can ask for.
#[derive(Clone, Copy)]
pub(crate) enum Section {
    Control,
    Usage,
    Flow,
    Slice,
    Paths,
    Semantic,
    Inputs,
    Compliance,
    Certificates,
}

/// The section that a word asks for.
#[tactic(auto, unfolding(crate::specs::Reading::section_of))]
pub(crate) fn section_of(word: &str) -> Option<Section>
    ensures { result ≡ section_of word.now }
{
    match word {
        "--control" => Some(Section::Control),
        "--use" => Some(Section::Usage),
        "--flow" => Some(Section::Flow),
        "--slice" => Some(Section::Slice),
        "--paths" => Some(Section::Paths),
        "--semantic" => Some(Section::Semantic),
        "--inputs" => Some(Section::Inputs),
        "--compliance" => Some(Section::Compliance),
        "--certificates" => Some(Section::Certificates),
        _ => None,
    }
}
