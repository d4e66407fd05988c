//! Worked cases of the layers from bytes to checked texts, tried through their public calls: sources and sinks, tokens,
//! expressions, statements, the lexer and the parser together, blocks, and the rules of names and types. Nothing but
//! tests stands here, one module a layer, so that no layer is proved with its tests.
#![tactic(auto)]

#[cfg(test)]
mod blocks;
#[cfg(test)]
mod devices;
#[cfg(test)]
mod expressions;
#[cfg(test)]
mod fronts;
#[cfg(test)]
mod rules;
#[cfg(test)]
mod statements;
#[cfg(test)]
mod texts;
#[cfg(test)]
mod tokens;
