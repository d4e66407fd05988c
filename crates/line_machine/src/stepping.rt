//! One step of one line.
ghost use Rattle.std.specs.Prelude.{ℕ, ◌≡◌, ◌≢◌, ◌^◌, ◌≤◌, ◌<◌, ◌+◌, ◌-◌, ◌≤ℤ◌, ◌<ℤ◌, ◌+ℤ◌, ◌-ℤ◌, pos, negsuc, IsTrue, Some, None, IfSome, OnSome, length, unsigned_abs, slice_get, slice_set};
ghost use Rattle.std.specs.Int.{int_rem_euclid};
ghost use Rattle.std.specs.Option.{option_copied};
ghost use Rattle.il_core.specs.Procedure as instruction;
ghost use Rattle.il_core.specs.Expression.{Expression, expression_of};
ghost use Rattle.il_core.specs.Procedure.{instruction_of};
ghost use Rattle.il_core.specs.Evaluation.{whole, holds};
ghost use Rattle.il_core.specs.Machine.{step, stepped, decided, goes, stays, bit, given, lies_in, wrapped, kept, stored, assigned_to, assigned};
ghost use Rattle.il_core.specs.Run.{IsInRange};
ghost use Rattle.il_core.specs.Checked.{procedure_of};
ghost use Rattle.il_core.specs.declared.line.Place.{Place};
ghost use Rattle.line_machine.specs.Fits.{PartsFit, LineFits};

use crate::evaluation::{truth_value, whole_value};
use il_core::{CheckedProc, Expr, Halt, Line, Next, Place};

/// Where a condition leads: by its truth, or to a division by zero.
pub fn decide(truth: Option<bool>, fault: Next, met: Next, unmet: Next) -> Next
    ensures { (s : _) → record { next = result; state = s } ≡ decided truth (record { next = fault; state = s }) (record { next = met; state = s }) (record { next = unmet; state = s }) }
{
    match truth {
        None => fault,
        Some(true) => met,
        Some(false) => unmet,
    }
}

/// The value that an expression gives a place: 0 or 1 where the place holds a truth value.
fn given_value(vals: &[i64], place: &Place, expr: &Expr) -> Option<i128>
    requires { PartsFit vals.now (expression_of expr.now) }
    ensures value { result ≡ given place.now (expression_of expr.now) vals.now }
    ensures small { IfSome result (λ v. unsigned_abs v ≤ 2 ^ 126) }
{
    if place.flag {
        match truth_value(vals, expr) {
            Some(true) => Some(1),
            Some(false) => Some(0),
            None => None,
        }
    } else {
        whole_value(vals, expr)
    }
}

/// The same number, where it is one of 64 bits.
fn narrowed(value: i128) -> i64
    requires low { negsuc (2 ^ 63 - 1) ≤ℤ value }
    requires high { value ≤ℤ pos (2 ^ 63 - 1) }
    ensures { result ≡ value }
{
    value as i64
}

/// How far a value lies above the least one.
fn distance(value: i128, least: i64) -> i128
    requires { unsigned_abs value ≤ 2 ^ 126 }
    ensures value { result ≡ value -ℤ least }
    ensures bound { unsigned_abs result < 2 ^ 127 }
{
    value - i128::from(least)
}

/// How many values a range has.
fn range_length(least: i64, greatest: i64) -> i128
    requires { least ≤ℤ greatest }
    ensures value { result ≡ (greatest -ℤ least) +ℤ pos 1 }
    ensures some { pos 0 <ℤ result }
{
    i128::from(greatest) - i128::from(least) + 1
}

/// The remainder that is at least 0.
fn remainder(value: i128, length: i128) -> i128
    requires { pos 0 <ℤ length }
    ensures { result ≡ int_rem_euclid value length }
{
    value.rem_euclid(length)
}

/// The value so far above the least one.
fn raised(least: i64, by: i128) -> i64
    requires low { pos 0 ≤ℤ by }
    requires high { (least +ℤ by) ≤ℤ pos (2 ^ 63 - 1) }
    ensures { result ≡ least +ℤ by }
{
    narrowed(i128::from(least) + by)
}

/// The value of the place's range that differs from `value` by a multiple of the range's length.
fn wrapped_value(place: &Place, value: i128) -> i64
    requires ordered { place.now.least ≤ℤ place.now.greatest }
    requires small { unsigned_abs value ≤ 2 ^ 126 }
    ensures { result ≡ wrapped place.now value }
{
    let length = range_length(place.least, place.greatest);
    let above = remainder(distance(value, place.least), length);
    raised(place.least, above)
}

/// Whether a value lies in the place's range.
fn is_inside(place: &Place, value: i128) -> bool
    ensures value { result ≡ lies_in place.now value }
    ensures fits { IsTrue result → (negsuc (2 ^ 63 - 1) ≤ℤ value) × (value ≤ℤ pos (2 ^ 63 - 1)) }
{
    i128::from(place.least) <= value && value <= i128::from(place.greatest)
}

/// What a place keeps of a value; `None` where it is out of range.
fn kept_value(place: &Place, value: i128) -> Option<i64>
    requires ordered { place.now.least ≤ℤ place.now.greatest }
    requires small { unsigned_abs value ≤ 2 ^ 126 }
    ensures { result ≡ kept place.now value }
{
    if place.wrap {
        Some(wrapped_value(place, value))
    } else if is_inside(place, value) {
        Some(narrowed(value))
    } else {
        None
    }
}

/// Gives place `index` what it keeps of a value, where it keeps something.
pub fn store(vals: &mut [i64], pc: usize, index: usize, place: &Place, value: i128) -> Next
    requires line { pc < 1000 }
    requires there { index < length vals.old }
    requires ordered { place.now.least ≤ℤ place.now.greatest }
    requires small { unsigned_abs value ≤ 2 ^ 126 }
    ensures { record { next = result; state = vals.new } ≡ stored pc index vals.old (kept place.now value) }
{
    match kept_value(place, value) {
        Some(kept) => {
            vals[index] = kept;
            Next::At(pc + 1)
        }
        None => Next::Halted(Halt::Range(pc)),
    }
}

/// The step of an assignment to this place, which has number `index`.
fn assign_to(vals: &mut [i64], pc: usize, index: usize, place: &Place, expr: &Expr) -> Next
    requires line { pc < 1000 }
    requires there { index < length vals.old }
    requires ordered { place.now.least ≤ℤ place.now.greatest }
    requires fits { PartsFit vals.old (expression_of expr.now) }
    ensures { record { next = result; state = vals.new } ≡ assigned_to pc index place.now vals.old (given place.now (expression_of expr.now) vals.old) }
{
    match given_value(vals, place, expr) {
        Some(value) => store(vals, pc, index, place, value),
        None => Next::Halted(Halt::DivZero(pc)),
    }
}

/// The place of this number.
fn place_at(places: &[Place], index: usize) -> Option<&Place>
    ensures value { option_copied result ≡ slice_get places.now index }
    ensures within { OnSome result (index < length places.now) }
{
    places.get(index)
}

/// The step of an assignment to place `index`.
fn assign(places: &[Place], vals: &mut [i64], pc: usize, index: usize, expr: &Expr) -> Next
    requires line { pc < 1000 }
    requires size { length vals.old ≡ length places.now }
    requires ordered { (p : _) → slice_get places.now index ≡ Some p → p.least ≤ℤ p.greatest }
    requires fits { PartsFit vals.old (expression_of expr.now) }
    ensures { record { next = result; state = vals.new } ≡ assigned pc index (expression_of expr.now) vals.old (slice_get places.now index) }
{
    match place_at(places, index) {
        Some(place) => assign_to(vals, pc, index, place, expr),
        None => Next::Halted(Halt::Range(pc)),
    }
}

/// The next line, behind line `pc`.
fn onward(pc: usize) -> Next
    requires { pc < 1000 }
    ensures { result ≡ Next.At (pc + 1) }
{
    Next::At(pc + 1)
}

/// The step of a line that assigns nothing.
fn move_on(pc: usize, line: &Line, vals: &[i64]) -> Next
    requires line { pc < 1000 }
    requires fits { LineFits vals.now (instruction_of line.now) }
    requires plain { (p : ℕ) (e : Expression) → instruction_of line.now ≡ instruction.assign p e → ⊥ }
    ensures { (places : _) → record { next = result; state = vals.now } ≡ stepped places pc vals.now (instruction_of line.now) }
{
    let fault = Next::Halted(Halt::DivZero(pc));
    match line {
        Line::Pre(e) => decide(
            truth_value(vals, e),
            fault,
            onward(pc),
            Next::Halted(Halt::Outside),
        ),
        Line::If(e, target) => decide(truth_value(vals, e), fault, onward(pc), Next::At(*target)),
        Line::ExitWhen(e, target) => decide(
            truth_value(vals, e),
            fault,
            Next::At(*target),
            onward(pc),
        ),
        Line::Assert(e) => decide(
            truth_value(vals, e),
            fault,
            onward(pc),
            Next::Halted(Halt::FailedAssert(pc)),
        ),
        Line::EndProc(e) => decide(
            truth_value(vals, e),
            fault,
            Next::Halted(Halt::End),
            Next::Halted(Halt::FailedPost),
        ),
        Line::Else(target)
        | Line::EndLoop(target)
        | Line::Exit(target)
        | Line::Goto(target)
        | Line::Return(target) => Next::At(*target),
        Line::EndIf | Line::Loop | Line::Label | Line::Skip => onward(pc),
        Line::Assign(_, _) => unreachable!(),
    }
}

/// The step of a line.
fn step_line(places: &[Place], pc: usize, line: &Line, vals: &mut [i64]) -> Next
    requires line { pc < 1000 }
    requires size { length vals.old ≡ length places.now }
    requires ordered { (k : ℕ) (p : Place) → slice_get places.now k ≡ Some p → p.least ≤ℤ p.greatest }
    requires fits { LineFits vals.old (instruction_of line.now) }
    ensures { record { next = result; state = vals.new } ≡ stepped places.now pc vals.old (instruction_of line.now) }
{
    match line {
        Line::Assign(index, expr) => assign(places, vals, pc, *index, expr),
        other => move_on(pc, other, vals),
    }
}

/// The line at this number.
fn line_at(lines: &[Line], pc: usize) -> &Line
    requires { pc < length lines.now }
    ensures { slice_get lines.now pc ≡ Some result.now }
{
    &lines[pc]
}

/// One step of the line machine from line `pc` and the values `vals`, which it turns into the new ones. It takes no
/// memory. On a halt the values are as before.
///
/// `pc` is a line of the procedure, and `vals` has one value in range per place.
pub fn step(proc: &CheckedProc, pc: usize, vals: &mut [i64]) -> Next
    requires line { pc < length proc.now.lines }
    requires range { IsInRange proc.now.places vals.old }
    ensures next { result ≡ (step (procedure_of proc.now) pc vals.old).next }
    ensures values { vals.new ≡ (step (procedure_of proc.now) pc vals.old).state }
    ensures range { IsInRange proc.now.places vals.new }
{
    let places = proc.places();
    let lines = proc.lines();
    let line = line_at(lines.as_slice(), pc);
    step_line(places.as_slice(), pc, line, vals)
}
