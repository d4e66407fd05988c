//! Worked cases of the layers over lines and graphs, tried through their public calls: the line machine, the graph of a
//! procedure, its control structure, its intervals, elimination, paths, the use of variables, pairs of paths and the
//! flow of information. The procedures and graphs are read from texts. Nothing but tests stands here, one module a layer,
//! so that no layer is proved with its tests.
#![tactic(auto)]

#[cfg(test)]
mod control;
#[cfg(test)]
mod elimination;
#[cfg(test)]
mod flows;
#[cfg(test)]
mod intervals;
#[cfg(test)]
mod lines;
#[cfg(test)]
mod pairs;
#[cfg(test)]
mod paths;
#[cfg(test)]
mod rows;
#[cfg(test)]
mod steps;
#[cfg(test)]
mod texts;
#[cfg(test)]
mod uses;
