//! Test inputs for the rows of a table. A row is a promise about all inputs that take it; its test input is one of them,
//! ready to be tried on the real device: the least input of the row's literals, kept only where stepping the lines from
//! it takes the row's decisions and stops as it does (test data from path conditions: L. A. Clarke, A system to generate
//! test data and symbolically execute programs, 1976).
#![tactic(auto)]

mod answering;
mod heads;
mod laws;
mod stepping;

pub use answering::inputs;
pub use laws::{
    easy_rows_have_inputs, rows_are_taken_where_met, table_inputs_serve, test_inputs_lead_to_stops,
};
