//! Information flow: which initial values and which tests decide the final value of each variable of a procedure.
//!
//! Over the graph of a procedure, the lines that are relevant to a variable and the places that each line needs for it
//! are the least sets closed under five rules (`specs/Relevance.antt`). `relevant` answers these sets line by line,
//! `flows` what a report shows of them: the sources, which are the places that line 0 needs, and the reachable tests that
//! are relevant; and `flows_and_sets` both, of sets that it finds once. Bergeretti and Carré, Information-flow and data-flow analysis of while-programs, 1985, define such
//! relations along the structure of a program; the rules here are for graphs, where a test is relevant if two paths to
//! relevant lines share it alone. By `equal_values` two runs that end, and whose initial states agree on the sources, end
//! with equal values of the variable.
//!
//! The sets are found by passes over the lines from the last to the first until none changes anything, and by labels of
//! lines, again and again until these show that no test is left to be made relevant: each line that is not relevant has
//! the label of the lines behind it, which name the one relevant line to which all paths from it come first. Where the
//! lines behind a test have different labels, it is asked whether two paths from it to relevant lines share it alone. A
//! pass takes time linear in the graph, and so does each question.
#![tactic(auto)]

mod flowing;
mod labels;
mod laws;
mod masks;
mod pairs;
mod relevance;
mod row;
mod sets;

pub use flowing::{FlowsAndSets, flows, flows_and_sets};
pub use laws::equal_values;
pub use relevance::{RelevantSets, VariableSets, relevant};
pub use row::FlowRow;
