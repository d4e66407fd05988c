//! Worked cases of words, of made texts and of their summaries, tried through the public calls of their layers. Nothing but
//! tests stands here, so that no layer is proved with its tests.
#![tactic(auto)]

#[cfg(test)]
mod made_texts;
#[cfg(test)]
mod word_lists;
