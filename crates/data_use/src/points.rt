//! The points of a variable, and what its events do to them.
ghost use Rattle.std.specs.Prelude.{◌≡◌, ◌+◌, ◌≤◌, ◌<◌, ◌↔◌, ◌⊎◌, ℕ};
ghost use Rattle.regular_algebra.specs.Relation.{Joins};
ghost use Rattle.data_use.specs.Points.{number, events_in, AddsMove, LeadsOn};

use regular_algebra::BitRelation;

/// The number of points of a variable.
pub const POINTS: usize = 7;

/// What a variable's events so far may be.
#[derive(Clone, Copy, PartialEq, Eq)]
pub enum Point {
    /// No write yet.
    Fresh,
    /// A read before any write.
    ReadFirst,
    /// Whatever they are.
    Any,
    /// A read at some time.
    ReadOnce,
    /// A write at some time.
    WrittenOnce,
    /// A write as the last event.
    JustWritten,
    /// Two writes with no read between.
    Overwritten,
}

impl Point {
    /// Its place among the points.
    pub fn number(self) -> usize
        ensures value { result ≡ number self }
        ensures low { result < 7 }
    {
        match self {
            Point::Fresh => 0,
            Point::ReadFirst => 1,
            Point::Any => 2,
            Point::ReadOnce => 3,
            Point::WrittenOnce => 4,
            Point::JustWritten => 5,
            Point::Overwritten => 6,
        }
    }
}

/// A pair of points, from the first of which events lead to the second.
#[derive(Clone, Copy, PartialEq, Eq)]
pub struct Move {
    pub from: Point,
    pub to: Point,
}

/// What a line does to a variable.
#[derive(Clone, Copy, PartialEq, Eq)]
pub enum Effect {
    Nothing,
    Read,
    Write,
    ReadThenWrite,
}

const STAY: [Move; 7] = [
    Move {
        from: Point::Fresh,
        to: Point::Fresh,
    },
    Move {
        from: Point::ReadFirst,
        to: Point::ReadFirst,
    },
    Move {
        from: Point::Any,
        to: Point::Any,
    },
    Move {
        from: Point::ReadOnce,
        to: Point::ReadOnce,
    },
    Move {
        from: Point::WrittenOnce,
        to: Point::WrittenOnce,
    },
    Move {
        from: Point::JustWritten,
        to: Point::JustWritten,
    },
    Move {
        from: Point::Overwritten,
        to: Point::Overwritten,
    },
];

const READ: [Move; 8] = [
    Move {
        from: Point::Fresh,
        to: Point::Fresh,
    },
    Move {
        from: Point::Fresh,
        to: Point::ReadFirst,
    },
    Move {
        from: Point::ReadFirst,
        to: Point::ReadFirst,
    },
    Move {
        from: Point::Any,
        to: Point::Any,
    },
    Move {
        from: Point::Any,
        to: Point::ReadOnce,
    },
    Move {
        from: Point::ReadOnce,
        to: Point::ReadOnce,
    },
    Move {
        from: Point::WrittenOnce,
        to: Point::WrittenOnce,
    },
    Move {
        from: Point::Overwritten,
        to: Point::Overwritten,
    },
];

const WRITE: [Move; 8] = [
    Move {
        from: Point::ReadFirst,
        to: Point::ReadFirst,
    },
    Move {
        from: Point::Any,
        to: Point::Any,
    },
    Move {
        from: Point::Any,
        to: Point::WrittenOnce,
    },
    Move {
        from: Point::Any,
        to: Point::JustWritten,
    },
    Move {
        from: Point::ReadOnce,
        to: Point::ReadOnce,
    },
    Move {
        from: Point::WrittenOnce,
        to: Point::WrittenOnce,
    },
    Move {
        from: Point::JustWritten,
        to: Point::Overwritten,
    },
    Move {
        from: Point::Overwritten,
        to: Point::Overwritten,
    },
];

const READ_THEN_WRITE: [Move; 9] = [
    Move {
        from: Point::Fresh,
        to: Point::ReadFirst,
    },
    Move {
        from: Point::ReadFirst,
        to: Point::ReadFirst,
    },
    Move {
        from: Point::Any,
        to: Point::Any,
    },
    Move {
        from: Point::Any,
        to: Point::ReadOnce,
    },
    Move {
        from: Point::Any,
        to: Point::WrittenOnce,
    },
    Move {
        from: Point::Any,
        to: Point::JustWritten,
    },
    Move {
        from: Point::ReadOnce,
        to: Point::ReadOnce,
    },
    Move {
        from: Point::WrittenOnce,
        to: Point::WrittenOnce,
    },
    Move {
        from: Point::Overwritten,
        to: Point::Overwritten,
    },
];

/// Joins the points of each move, where the points are numbered from `first` on.
fn add_moves(relation: &mut BitRelation, first: usize, moves: &[Move])
    requires { first + 7 ≤ 66 }
    ensures { (x y : ℕ) → Joins relation.new x y ↔ (Joins relation.old x y ⊎ AddsMove first moves.now x y) }
{
    for step in moves {
        relation.set(first + step.from.number(), first + step.to.number());
    }
}

/// Joins the points between which an effect leads, where the points are numbered from `first` on.
pub fn add_effect(relation: &mut BitRelation, first: usize, effect: Effect)
    requires { first + 7 ≤ 66 }
    ensures { (x y : ℕ) → Joins relation.new x y ↔ (Joins relation.old x y ⊎ LeadsOn first (events_in effect) x y) }
{
    match effect {
        Effect::Nothing => add_moves(relation, first, &STAY),
        Effect::Read => add_moves(relation, first, &READ),
        Effect::Write => add_moves(relation, first, &WRITE),
        Effect::ReadThenWrite => add_moves(relation, first, &READ_THEN_WRITE),
    }
}
