//! Laws of steps and arcs, as contracts of functions that do nothing.
ghost use Rattle.flow_graph.specs.Laws.{StepsGoAlongArcs, WalksArePaths};

/// Every step of the line machine that does not halt goes along an arc of the procedure's graph.
pub fn steps_go_along_arcs()
    ensures { StepsGoAlongArcs }
{}

/// The walks of a procedure's graph are the paths of the procedure.
pub fn walks_are_paths()
    ensures { WalksArePaths }
{}
