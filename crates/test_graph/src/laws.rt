//! Laws of the ways through lines, as contracts of functions that do nothing.
ghost use Rattle.test_graph.specs.Laws.{OneWayHolds, WaysDiffer, SomeWay, WaysAreSteps, WaysGoAlongArcs, WaysSpeakOfPlaces};

/// In each state exactly one way through a line has only literals that hold: the way that the state takes.
pub fn one_way_holds()
    ensures { OneWayHolds }
{}

/// The decisions of no way through a line begin with those of another.
pub fn ways_differ()
    ensures { WaysDiffer }
{}

/// There is a way through each line.
pub fn some_way()
    ensures { SomeWay }
{}

/// In a state in range, the way of a checked procedure's line whose literals hold is the step of the line machine.
pub fn ways_are_steps()
    ensures { WaysAreSteps }
{}

/// A way that leads to a line goes along an arc of the line graph.
pub fn ways_go_along_arcs()
    ensures { WaysGoAlongArcs }
{}

/// A way through a line of a checked procedure speaks of the procedure's places alone.
pub fn ways_speak_of_places()
    ensures { WaysSpeakOfPlaces }
{}
