//! Worked cases of the texts of normal terms and of forms of literals, tried through the public calls that write them.
//! Nothing but tests stands here, so that the layer is not proved with its tests.
#![tactic(auto)]

#[cfg(test)]
mod forms;
