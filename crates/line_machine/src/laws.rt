//! Laws of division, of static bounds and of steps, as contracts of functions that do nothing.
ghost use Rattle.line_machine.specs.Laws.{DivisionIsEuclidean, BoundsHold, StepsStayInside};

/// DIV and MOD are quotient and remainder of the division whose remainder is at least 0 and below the divisor's
/// absolute value.
pub fn division_is_euclidean()
    ensures { DivisionIsEuclidean }
{}

/// Static bounds hold of every value that evaluation gives in a state in range.
pub fn bounds_hold()
    ensures { BoundsHold }
{}

/// A step of a checked procedure from a state in range leads to a state in range and, where it does not halt, along an
/// arc to one of its lines.
pub fn steps_stay_inside()
    ensures { StepsStayInside }
{}
