//! Laws of refuted lists and least inputs, as contracts of functions that do nothing.
ghost use Rattle.path_inputs.specs.Laws.{RefutedStaysRefuted, LeastMeetsCore, UnmetIsLoose};

/// What is plainly refuted stays so, whatever literals follow.
pub fn refuted_stays_refuted()
    ensures { RefutedStaysRefuted }
{}

/// The least input meets all literals, where each is easy and in the core.
pub fn least_meets_core()
    ensures { LeastMeetsCore }
{}

/// Where the least input does not meet all literals, some literal is hard, or an easy `/=` outside the core.
pub fn unmet_is_loose()
    ensures { UnmetIsLoose }
{}
