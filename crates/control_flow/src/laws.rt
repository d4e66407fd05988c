//! Laws of cycles and loop heads, as contracts of functions that do nothing.
ghost use Rattle.control_flow.specs.Laws.{ReducibleCyclesHoldAHead};

/// In a graph where no cycle is twice entered, every closed walk of reachable lines holds a loop head.
pub fn reducible_cycles_hold_a_head()
    ensures { ReducibleCyclesHoldAHead }
{}
