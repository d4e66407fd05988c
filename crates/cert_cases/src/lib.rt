//! Worked cases of certificates, tried on the reports of texts. Nothing but tests stands here, so that no layer is proved
//! with its tests.
#![tactic(auto)]

#[cfg(test)]
mod made;
#[cfg(test)]
mod rows;
