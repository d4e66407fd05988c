//! Normal terms: a constant and parts in order of their atoms, each atom with one coefficient. Terms with the same normal
//! term have the same value in every state, so normal terms tell some equal terms apart from how they are written. The
//! normal term of a term is defined by the flat list of the term's summands; it is found by merging ordered lists of
//! parts, as sums of sparse polynomials are (D. E. Knuth, The Art of Computer Programming, volume 1, 1968).
//!
//! [`Forms`] keeps terms and normal terms by numbers, each distinct one once (A. P. Ershov, On programming of arithmetic
//! operations, 1958): equal normal terms have equal numbers, and each term is worked on at most twice. [`norm`],
//! [`norm_literal`] and [`linear`] answer for terms and literals that stand alone. A sum costs as many steps as its sides
//! have parts; two atoms are compared in as many steps as their first difference is deep, and the parts before it.
#![tactic(auto)]

mod arithmetic;
mod comparing;
mod easy;
mod forms;
mod laws;
mod linear_terms;
mod literal;
mod node;
mod normal;
mod norming;
mod opening;
mod reading;
mod simplifying;
mod table;

pub use easy::{Multiple, is_easy, multiple_in};
pub use forms::Forms;
pub use laws::{
    coefficients_are_sums, constants_are_sums, differences_are_normal_terms,
    normal_terms_are_normal, normal_terms_are_unique, normal_terms_keep_values, orders_are_exact,
    weights_bound_normal_terms, worked_texts,
};
pub use node::{FormAtom, FormId, FormNode, FormPart};
pub use normal::{Atom, Kept, LinearPart, LinearTerm, LitForm, Normal, Part};
pub(crate) use opening::OpenForm;
pub use simplifying::{linear, norm, norm_literal};
pub(crate) use table::FormTable;
