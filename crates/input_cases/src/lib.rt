//! Worked cases of least inputs, tried through the public call of their layer. Nothing but tests stands here, so that the
//! layer is not proved with its tests.
#![tactic(auto)]

#[cfg(test)]
mod least_inputs;
