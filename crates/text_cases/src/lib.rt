//! Worked cases of the layers above the analyses, tried through their public calls: the text of a report, and the answers
//! to whole texts. Nothing but tests stands here, so that no layer is proved with its tests.
#![tactic(auto)]

#[cfg(test)]
mod answers;
#[cfg(test)]
mod language;
#[cfg(test)]
mod refusals;
#[cfg(test)]
mod reported;
#[cfg(test)]
mod whole;
#[cfg(test)]
mod written;
