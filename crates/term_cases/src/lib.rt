//! Worked cases of names, lists, difference constraints and terms, tried through the public calls of their layers.
//! Nothing but tests stands here, one module a layer, so that no layer is proved with its tests.
#![tactic(auto)]

#[cfg(test)]
mod differences;
#[cfg(test)]
mod names;
#[cfg(test)]
mod normal_terms;
#[cfg(test)]
mod terms;
#[cfg(test)]
mod trees;
