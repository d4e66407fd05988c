//! One step along given decisions.
ghost use Rattle.std.specs.Prelude.{◌≡◌, ◌^◌, ◌≤◌, ◌<◌, ◌≤ℤ◌, ◌++◌, ◌+◌, ℕ, ℤ, pos, Some, None, int_le, MatchOption, length, unsigned_abs, slice_get};
ghost use Rattle.std.specs.Option.{option_copied, option_map};
ghost use Rattle.il_core.specs.Procedure as instruction;
ghost use Rattle.il_core.specs.Expression.{Expression, expression_of};
ghost use Rattle.il_core.specs.Procedure.{instruction_of};
ghost use Rattle.il_core.specs.Bounds.{IsNarrow, bounds_of};
ghost use Rattle.il_core.specs.Evaluation.{whole, holds};
ghost use Rattle.il_core.specs.Machine.{bit, decided, kept, stored, assigned_to, assigned, stepped};
ghost use Rattle.il_core.specs.Run.{IsInRange};
ghost use Rattle.il_core.specs.Checked.{procedure_of};
ghost use Rattle.il_core.specs.declared.line.Place as the_place;
ghost use Rattle.line_machine.specs.Fits.{PartsFit, LineFits};
ghost use Rattle.line_machine.specs.Static.{bounds_in};
ghost use Rattle.test_graph.specs.Followed.{followed, whole_path, truth_path, greatest_path, range_path, kept_path, flag_path, given_path, line_path, AlongAt, LineIsNarrow};
ghost use Rattle.test_graph.specs.Along.{IsTaken, IsNotTaken};

use crate::Taken;
use crate::assigning::place_at;
use crate::following::{Decided, follow, truth_along, whole_along};
use crate::lines::line_at;
use il_core::{CheckedProc, Expr, Halt, Line, Next, Place};
use line_machine::{StaticBounds, decide, static_bounds, store, value_in};

/// A step that leaves the state as it is, where its decisions were followed.
fn taken(next: Next, at: Option<usize>) -> Option<Taken>
    ensures { (s : _) → AlongAt at (record { next = next; state = s }) s result s }
{
    match at {
        Some(used) => Some(Taken { next, used }),
        None => None,
    }
}

/// The position behind the decision that a value is not above the place's range.
#[tactic(auto, using(crate::proofs::FollowedSteps::stepping))]
fn greatest_along(
    place: &Place,
    bounds: StaticBounds,
    value: i128,
    path: &[bool],
    at: Option<usize>,
) -> Option<usize>
    ensures { result ≡ followed path.now at (greatest_path place.now (bounds_in bounds) value) }
{
    if i128::from(place.greatest) < bounds.high {
        follow(path, at, value <= i128::from(place.greatest))
    } else {
        at
    }
}

/// Whether a value is not below the place's range.
fn is_at_least(place: &Place, value: i128) -> bool
    ensures { result ≡ int_le place.now.least value }
{
    i128::from(place.least) <= value
}

/// The position behind the decisions on the range of a value.
#[tactic(auto, using(crate::proofs::FollowedSteps::stepping))]
fn range_along(
    place: &Place,
    bounds: StaticBounds,
    value: i128,
    path: &[bool],
    at: Option<usize>,
) -> Option<usize>
    ensures { result ≡ followed path.now at (range_path place.now (bounds_in bounds) value) }
{
    if bounds.low < i128::from(place.least) {
        let inside = is_at_least(place, value);
        let behind = follow(path, at, inside);
        if inside {
            greatest_along(place, bounds, value, path, behind)
        } else {
            behind
        }
    } else {
        greatest_along(place, bounds, value, path, at)
    }
}

/// The position behind the decisions on what a place keeps of a value.
fn kept_along(
    place: &Place,
    bounds: StaticBounds,
    value: i128,
    path: &[bool],
    at: Option<usize>,
) -> Option<usize>
    ensures { result ≡ followed path.now at (kept_path place.now (bounds_in bounds) (Some value)) }
{
    if place.wrap {
        at
    } else {
        range_along(place, bounds, value, path, at)
    }
}

/// Gives a place what it keeps of a value, where the decisions were followed.
fn store_along(
    vals: &mut [i64],
    pc: usize,
    index: usize,
    place: &Place,
    value: i128,
    at: Option<usize>,
) -> Option<Taken>
    requires line { pc < 1000 }
    requires there { index < length vals.old }
    requires ordered { place.now.least ≤ℤ place.now.greatest }
    requires small { unsigned_abs value ≤ 2 ^ 126 }
    ensures { AlongAt at (stored pc index vals.old (kept place.now value)) vals.old result vals.new }
{
    match at {
        Some(used) => {
            let next = store(vals, pc, index, place, value);
            Some(Taken { next, used })
        }
        None => None,
    }
}

/// The step of an assignment of a whole number to this place, along a path.
#[tactic(auto, using(crate::proofs::FollowedSteps::stepping))]
fn number_along(
    places: &[Place],
    vals: &mut [i64],
    pc: usize,
    index: usize,
    place: &Place,
    expr: &Expr,
    path: &[bool],
) -> Option<Taken>
    requires line { pc < 1000 }
    requires there { index < length vals.old }
    requires ordered { place.now.least ≤ℤ place.now.greatest }
    requires narrow { IsNarrow places.now (expression_of expr.now) }
    requires fits { PartsFit vals.old (expression_of expr.now) }
    ensures { AlongAt (followed path.now (Some 0) (whole_path places.now (expression_of expr.now) vals.old ++ kept_path place.now (bounds_of places.now (expression_of expr.now)) (whole (expression_of expr.now) vals.old))) (assigned_to pc index place.now vals.old (whole (expression_of expr.now) vals.old)) vals.old result vals.new }
{
    let found = whole_along(places, vals, expr, path, Some(0));
    match found.value {
        None => taken(Next::Halted(Halt::DivZero(pc)), found.at),
        Some(value) => {
            let bounds = static_bounds(places, expr);
            let at = kept_along(place, bounds, value, path, found.at);
            store_along(vals, pc, index, place, value, at)
        }
    }
}

/// The truth that a place for truth values is given, along a path: a single variable is copied without a decision.
fn given_along(places: &[Place], vals: &[i64], expr: &Expr, path: &[bool]) -> Decided
    requires narrow { IsNarrow places.now (expression_of expr.now) }
    requires fits { PartsFit vals.now (expression_of expr.now) }
    ensures truth { result.truth ≡ holds (expression_of expr.now) vals.now }
    ensures at { result.at ≡ followed path.now (Some 0) (flag_path places.now (expression_of expr.now) vals.now) }
{
    match expr {
        Expr::Flag(source) => Decided {
            truth: Some(value_in(vals, *source) >= 1),
            at: Some(0),
        },
        Expr::Num(_)
        | Expr::Var(_)
        | Expr::Truth(_)
        | Expr::Neg(_)
        | Expr::Not(_)
        | Expr::Binary(_, _, _) => truth_along(places, vals, expr, path, Some(0)),
    }
}

/// 1 for true and 0 for false.
fn bit_of(truth: bool) -> i128
    ensures value { result ≡ bit truth }
    ensures small { unsigned_abs result ≤ 2 ^ 126 }
{
    if truth { 1 } else { 0 }
}

/// The step of an assignment of a truth value to this place, along a path.
#[tactic(auto, using(crate::proofs::FollowedSteps::stepping))]
fn flag_along(
    places: &[Place],
    vals: &mut [i64],
    pc: usize,
    index: usize,
    place: &Place,
    expr: &Expr,
    path: &[bool],
) -> Option<Taken>
    requires line { pc < 1000 }
    requires there { index < length vals.old }
    requires ordered { place.now.least ≤ℤ place.now.greatest }
    requires narrow { IsNarrow places.now (expression_of expr.now) }
    requires fits { PartsFit vals.old (expression_of expr.now) }
    ensures { AlongAt (followed path.now (Some 0) (flag_path places.now (expression_of expr.now) vals.old)) (assigned_to pc index place.now vals.old (option_map bit (holds (expression_of expr.now) vals.old))) vals.old result vals.new }
{
    let found = given_along(places, vals, expr, path);
    match found.truth {
        None => taken(Next::Halted(Halt::DivZero(pc)), found.at),
        Some(truth) => store_along(vals, pc, index, place, bit_of(truth), found.at),
    }
}

/// The step of an assignment, along a path.
#[tactic(auto, using(crate::proofs::FollowedSteps::stepping))]
fn assign_along(
    places: &[Place],
    vals: &mut [i64],
    pc: usize,
    index: usize,
    expr: &Expr,
    path: &[bool],
) -> Option<Taken>
    requires line { pc < 1000 }
    requires size { length vals.old ≡ length places.now }
    requires ordered { (p : _) → slice_get places.now index ≡ Some p → p.least ≤ℤ p.greatest }
    requires narrow { IsNarrow places.now (expression_of expr.now) }
    requires fits { PartsFit vals.old (expression_of expr.now) }
    ensures { AlongAt (followed path.now (Some 0) (given_path places.now (expression_of expr.now) (slice_get places.now index) vals.old)) (assigned pc index (expression_of expr.now) vals.old (slice_get places.now index)) vals.old result vals.new }
{
    match place_at(places, index) {
        None => taken(Next::Halted(Halt::Range(pc)), Some(0)),
        Some(place) => {
            if place.flag {
                flag_along(places, vals, pc, index, place, expr, path)
            } else {
                number_along(places, vals, pc, index, place, expr, path)
            }
        }
    }
}

/// The step of a condition, along a path.
fn between_along(
    places: &[Place],
    vals: &[i64],
    expr: &Expr,
    path: &[bool],
    fault: Next,
    met: Next,
    unmet: Next,
) -> Option<Taken>
    requires narrow { IsNarrow places.now (expression_of expr.now) }
    requires fits { PartsFit vals.now (expression_of expr.now) }
    ensures { AlongAt (followed path.now (Some 0) (truth_path places.now (expression_of expr.now) vals.now)) (decided (holds (expression_of expr.now) vals.now) (record { next = fault; state = vals.now }) (record { next = met; state = vals.now }) (record { next = unmet; state = vals.now })) vals.now result vals.now }
{
    let found = truth_along(places, vals, expr, path, Some(0));
    let next = decide(found.truth, fault, met, unmet);
    taken(next, found.at)
}

/// The next line, behind line `pc`.
fn onward(pc: usize) -> Next
    requires { pc < 1000 }
    ensures { result ≡ Next.At (pc + 1) }
{
    Next::At(pc + 1)
}

/// The step of a line that assigns nothing, along a path.
fn move_along(
    places: &[Place],
    pc: usize,
    line: &Line,
    vals: &[i64],
    path: &[bool],
) -> Option<Taken>
    requires line { pc < 1000 }
    requires narrow { LineIsNarrow places.now (instruction_of line.now) }
    requires fits { LineFits vals.now (instruction_of line.now) }
    requires plain { (p : ℕ) (e : Expression) → instruction_of line.now ≡ instruction.assign p e → ⊥ }
    ensures { AlongAt (followed path.now (Some 0) (line_path places.now (instruction_of line.now) vals.now)) (stepped places.now pc vals.now (instruction_of line.now)) vals.now result vals.now }
{
    let fault = Next::Halted(Halt::DivZero(pc));
    match line {
        Line::Pre(e) => {
            let outside = Next::Halted(Halt::Outside);
            between_along(places, vals, e, path, fault, onward(pc), outside)
        }
        Line::If(e, target) => {
            let behind = Next::At(*target);
            between_along(places, vals, e, path, fault, onward(pc), behind)
        }
        Line::ExitWhen(e, target) => {
            let behind = Next::At(*target);
            between_along(places, vals, e, path, fault, behind, onward(pc))
        }
        Line::Assert(e) => {
            let failed = Next::Halted(Halt::FailedAssert(pc));
            between_along(places, vals, e, path, fault, onward(pc), failed)
        }
        Line::EndProc(e) => {
            let end = Next::Halted(Halt::End);
            let failed = Next::Halted(Halt::FailedPost);
            between_along(places, vals, e, path, fault, end, failed)
        }
        Line::Else(target)
        | Line::EndLoop(target)
        | Line::Exit(target)
        | Line::Goto(target)
        | Line::Return(target) => taken(Next::At(*target), Some(0)),
        Line::EndIf | Line::Loop | Line::Label | Line::Skip => taken(onward(pc), Some(0)),
        Line::Assign(_, _) => unreachable!(),
    }
}

/// The step of a line, along a path.
fn line_along(
    places: &[Place],
    pc: usize,
    line: &Line,
    vals: &mut [i64],
    path: &[bool],
) -> Option<Taken>
    requires line { pc < 1000 }
    requires size { length vals.old ≡ length places.now }
    requires ordered { (k : ℕ) (p : the_place.Place) → slice_get places.now k ≡ Some p → p.least ≤ℤ p.greatest }
    requires narrow { LineIsNarrow places.now (instruction_of line.now) }
    requires fits { LineFits vals.old (instruction_of line.now) }
    ensures { AlongAt (followed path.now (Some 0) (line_path places.now (instruction_of line.now) vals.old)) (stepped places.now pc vals.old (instruction_of line.now)) vals.old result vals.new }
{
    match line {
        Line::Assign(index, expr) => assign_along(places, vals, pc, *index, expr, path),
        other => move_along(places, pc, other, vals, path),
    }
}

/// The step from line `pc` and the values `vals` if the decisions that it takes begin `path`: the next line or the
/// halt, and how many decisions it took. It turns `vals` into the new values. It is `None` exactly where these
/// decisions do not begin the path; then `vals` is as before. It takes no memory and evaluates the line's expression
/// once.
///
/// `pc` is a line of the procedure, and `vals` has one value in range per place.
pub fn step_along(proc: &CheckedProc, pc: usize, vals: &mut [i64], path: &[bool]) -> Option<Taken>
    requires line { pc < length proc.now.lines }
    requires range { IsInRange proc.now.places vals.old }
    ensures taken { MatchOption result (IsNotTaken (procedure_of proc.now) pc vals.old path.now vals.new) (λ t. IsTaken (procedure_of proc.now) pc vals.old path.now t vals.new) }
    ensures range { IsInRange proc.now.places vals.new }
{
    let places = proc.places();
    let lines = proc.lines();
    let line = line_at(lines.as_slice(), pc);
    line_along(places.as_slice(), pc, line, vals, path)
}
