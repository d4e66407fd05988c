//! Laws of runs and threats, as contracts of functions that do nothing.
ghost use Rattle.compliance.specs.Laws.{ShortPathsStayWithin, ThreatsAreListed, UnmetThreatsMeanNoBadRun, UnmetListsMeanNoBadRun, RefutedThreatsMeanNoBadRun, RefutedListsMeanNoBadRun, ThreatsAreTakenWhereMet, LeastInputsTakeThreats, OpenThreatsAreLoose, ThreatsAreTakenSoon, OneVerdict};

use path_inputs::{least_meets_core, unmet_is_loose};
use region_paths::{inputs_take_one_path, one_listing, paths_are_listed};
use test_graph::{ways_are_steps, ways_go_along_arcs};

/// A long path that halts stays within the opening of its region exactly where it passes no more lines than the opening
/// has.
pub fn short_paths_stay_within()
    ensures { ShortPathsStayWithin }
{
    ways_go_along_arcs();
}

/// Each region has one list of its threats.
pub fn threats_are_listed()
    ensures { ThreatsAreListed }
{
    ways_go_along_arcs();
    paths_are_listed();
}

/// Where no input of its region meets all literals of a threat, each threat of each region, no run from the precondition
/// faults, fails an assertion or ends outside the postcondition, however long it is, also where it never ends.
pub fn unmet_threats_mean_no_bad_run()
    ensures { UnmetThreatsMeanNoBadRun }
{
    ways_are_steps();
    inputs_take_one_path();
}

/// The same of a list of the threats of all regions within their size, where no region is past it.
pub fn unmet_lists_mean_no_bad_run()
    ensures { UnmetListsMeanNoBadRun }
{
    one_listing();
    unmet_threats_mean_no_bad_run();
}

/// Where each threat of each region is plainly refuted, there is no such run.
pub fn refuted_threats_mean_no_bad_run()
    ensures { RefutedThreatsMeanNoBadRun }
{
    unmet_threats_mean_no_bad_run();
}

/// The same of a list of the threats of all regions within their size, where no region is past it.
pub fn refuted_lists_mean_no_bad_run()
    ensures { RefutedListsMeanNoBadRun }
{
    unmet_lists_mean_no_bad_run();
}

/// An input of a region takes a threat, so that the lines stepped take its decisions and stop as it does, exactly where
/// it meets each literal of the threat.
pub fn threats_are_taken_where_met()
    ensures { ThreatsAreTakenWhereMet }
{
    ways_are_steps();
}

/// The least input of a threat takes it, where each literal of the threat is easy and in the core.
pub fn least_inputs_take_threats()
    ensures { LeastInputsTakeThreats }
{
    ways_are_steps();
    least_meets_core();
}

/// Where the least input of a threat does not take it, some literal of the threat is hard, or an easy `/=` outside the
/// core.
pub fn open_threats_are_loose()
    ensures { OpenThreatsAreLoose }
{
    ways_are_steps();
    unmet_is_loose();
}

/// An input that takes a threat does so in at most twice as many steps as there are lines, and two: before the first
/// head no line comes up twice, and the leading assertions behind it follow one another.
pub fn threats_are_taken_soon()
    ensures { ThreatsAreTakenSoon }
{
    ways_are_steps();
    ways_go_along_arcs();
}

/// No path has two verdicts.
pub fn one_verdict()
    ensures { OneVerdict }
{}
