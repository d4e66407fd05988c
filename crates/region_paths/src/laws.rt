//! Laws of regions and their paths, as contracts of functions that do nothing.
ghost use Rattle.region_paths.specs.Laws.{HeadsCutCycles, PathsAreListed, OneListing, InputsTakeOnePath, DecisionsTellPaths};

use test_graph::{ways_are_steps, ways_go_along_arcs};

/// Each cycle that can be reached from the first line of a region of a reducible procedure holds a loop head.
pub fn heads_cut_cycles()
    ensures { HeadsCutCycles }
{}

/// The paths down the two trees of a region, those of a true side first, are its paths and its long paths, in order.
pub fn paths_are_listed()
    ensures { PathsAreListed }
{
    ways_go_along_arcs();
}

/// The paths of a region stand in one order only.
pub fn one_listing()
    ensures { OneListing }
{}

/// Each state in range takes exactly one path and one long path of a region, and stepping the lines gives its stop and
/// its values.
pub fn inputs_take_one_path()
    ensures { InputsTakeOnePath }
{
    ways_are_steps();
    ways_go_along_arcs();
}

/// Two paths of a region that have the same decisions are the same.
pub fn decisions_tell_paths()
    ensures { DecisionsTellPaths }
{
    ways_go_along_arcs();
}
