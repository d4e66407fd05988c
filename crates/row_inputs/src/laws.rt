//! Laws of test inputs, as contracts of functions that do nothing.
ghost use Rattle.row_inputs.specs.Laws.{RowsAreTakenWhereMet, TestInputsLeadToStops, EasyRowsHaveInputs, TableInputsServe};

use path_inputs::least_meets_core;
use region_paths::{decisions_tell_paths, inputs_take_one_path};
use sym_simplify::normal_terms_keep_values;
use test_graph::ways_are_steps;

/// An input of a region takes a row, so that the lines stepped take its decisions and stop as it does, exactly where it
/// meets each literal of the row.
pub fn rows_are_taken_where_met()
    ensures { RowsAreTakenWhereMet }
{
    ways_are_steps();
    inputs_take_one_path();
    decisions_tell_paths();
}

/// Stepping the lines from a test input comes to the row's stop, where each place has the value of the row's term in the
/// input.
pub fn test_inputs_lead_to_stops()
    ensures { TestInputsLeadToStops }
{
    ways_are_steps();
    inputs_take_one_path();
    decisions_tell_paths();
    normal_terms_keep_values();
}

/// A row that is not plainly refuted has a test input, where each of its literals is easy and at most eight of them are
/// `/=`. No row of a table is plainly refuted.
pub fn easy_rows_have_inputs()
    ensures { EasyRowsHaveInputs }
{
    ways_are_steps();
    least_meets_core();
}

/// The test inputs of the rows of a table: each leads to its row's stop and values, and each row whose literals are easy
/// and at most eight of them `/=` has one.
pub fn table_inputs_serve()
    ensures { TableInputsServe }
{
    test_inputs_lead_to_stops();
    easy_rows_have_inputs();
}
