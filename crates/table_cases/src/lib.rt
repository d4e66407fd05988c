//! Worked cases of tables, long rows, test inputs and hazards, tried through their public calls on procedures that are read from texts.
//! Nothing but tests stands here, so that no layer is proved with its tests.
#![tactic(auto)]

#[cfg(test)]
mod inputs;
#[cfg(test)]
mod regions;
#[cfg(test)]
mod row_text;
#[cfg(test)]
mod sizes;
#[cfg(test)]
mod tables;
