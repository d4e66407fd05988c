//! Values that a plan can be run over.
ghost use Rattle.std.specs.Prelude.{◌↔◌, ◌⊎◌, IfOk};
ghost use Rattle.regular_algebra.specs.Relations.{Turns};

use il_core::NoMemory;
use std::alloc::Global;

/// Values that stand for relations between points. Which values of `Point` are points is said by `is_point`, and which
/// points a value joins by `joins`; a value joins nothing else. Each function may want memory, and fails at nothing
/// else.
pub trait Algebra: Sized + Drop {
    /// What a value joins.
    type Point;

    ghost is_point: { Self.Point → Type 0 };

    ghost joins: { Self → Self.Point → Self.Point → Type 0 };

    /// The value that joins nothing.
    fn zero(alloc: Global) -> Result<Self, NoMemory>
        ensures { IfOk result (λ r. (a b : Self.Point) → joins r a b → ⊥) };

    /// The value that joins what either joins.
    fn plus(&self, alloc: Global, other: &Self) -> Result<Self, NoMemory>
        ensures { IfOk result (λ r. (a b : Self.Point) → joins r a b ↔ (joins self.now a b ⊎ joins other.now a b)) };

    /// The value that joins through a point between: first by `self`, then by `other`.
    fn times(&self, alloc: Global, other: &Self) -> Result<Self, NoMemory>
        ensures { IfOk result (λ r. (a b : Self.Point) → joins r a b ↔ ((c : Self.Point) × joins self.now a c × joins other.now c b)) };

    /// The value that joins each point to itself and through any number of turns.
    fn star(&self, alloc: Global) -> Result<Self, NoMemory>
        ensures { IfOk result (λ r. (a b : Self.Point) → joins r a b ↔ Turns is_point (joins self.now) a b) };

    ghost only_points: { (x : Self) (a b : Self.Point) → joins x a b → is_point a × is_point b };
}
