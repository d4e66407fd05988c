//! Laws of the tables of regions, as contracts of functions that do nothing.
ghost use Rattle.semantic_tables.specs.Laws.{InputsHaveOneRow, InputsHaveOneLongRow, OneTable};

use region_paths::{inputs_take_one_path, one_listing};
use sym_simplify::normal_terms_keep_values;

/// Each input of a region has exactly one row of its table: the literals of that row alone hold in it, and stepping the
/// lines from it comes to the row's stop, where each place has the value of the row's term.
pub fn inputs_have_one_row()
    ensures { InputsHaveOneRow }
{
    inputs_take_one_path();
    normal_terms_keep_values();
}

/// The same of the long rows of a region, from which the lines are stepped on through the leading assertions of the head
/// that is met.
pub fn inputs_have_one_long_row()
    ensures { InputsHaveOneLongRow }
{
    inputs_take_one_path();
    normal_terms_keep_values();
}

/// A region has one table and one list of long rows: each list of normal rows that meets the definition is the same.
pub fn one_table()
    ensures { OneTable }
{
    one_listing();
}
