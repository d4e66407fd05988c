//! Laws of names and kinds. What a text's names and expressions are is defined once more here, for a reader: which declaration is in
//! force by positions in the list of statements, when a name is declared twice, and the kind of an expression by one rule for each of
//! its forms. The laws say that these definitions and the functions by which `il_types` accepts and refuses a text agree, in both
//! directions. They cost nothing.
#![tactic(auto)]

mod laws;

pub use laws::{
    bounds_are_shared, broken_modes_are_refused, declared_twice_is_refused,
    empty_ranges_are_refused, in_force_is_found, meaning_is_built, rules_are_kept,
    static_bounds_are_found, typed_is_accepted, unknown_names_are_refused, well_typed_is_accepted,
};
