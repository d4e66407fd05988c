//! From statements to names, types and limits. A text whose statements stand in order is accepted where it keeps the rules of
//! names, types, modes, ranges, bounds and limits; this layer answers that, or the first fault. The declarations are kept in one
//! hash table in the order in which they stand, under scope and name, so the work is linear in the text but for the look-ups by name.
#![tactic(auto)]

mod bounds;
mod checking;
mod counts;
mod kind;
mod modes;
mod names;
mod narrow;
mod range;
mod ranges;
mod rules;
mod setting;
mod typing;
mod unknown;

pub use bounds::Bounds;
pub use checking::{first_refusal, one_answer};
pub use counts::{Counts, all_counts, counts_behind, is_line, no_counts, too_many};
pub use kind::Kind;
pub use modes::{Part, keeps_modes, may_assign, mode_of};
pub use names::{FirstDeclarations, Names, Redeclaration, declare_all, first_declared};
pub use narrow::static_bounds;
pub use range::{Range, counts_before, is_flag, range_of_use};
pub use rules::{Found, Rule, fault, naming, refusal_of, unless};
pub use setting::{Setting, declaration};
pub use typing::{kind_of, kind_of_use, kind_of_variable, may_hold};
pub use unknown::{unknown_in, unknown_name};
