//! Labels of lines, which show that no test is left to be made relevant, or else which tests to ask.
ghost use Rattle.std.specs.Prelude.{◌≡◌, ℕ, ◌<◌, ◌↔◌, Some, None, true, length, replicate, IsTrue, IfOk};
ghost use Rattle.std.specs.Bool.{OnTrue};
ghost use Rattle.flow_graph.specs.Search.{AreBelow, StayBelow, row_of};
ghost use Rattle.info_flow.specs.Labels.{Agree, IsConsistent, is_other, label_at};

use il_core::{List, NoMemory};
use std::alloc::Global;

/// The labels of `count` lines, none of which has one.
fn no_labels(alloc: Global, count: usize) -> Result<Vec<Option<usize>>, NoMemory>
    ensures { IfOk result (λ v. v.items ≡ replicate count None) }
{
    Ok(vec![in alloc; None; count]?)
}

/// The label of a line.
fn label_at(labels: &[Option<usize>], line: usize) -> Option<usize>
    requires { line < length labels.now }
    ensures { result ≡ label_at labels.now line }
{
    labels[line]
}

/// Whether a line is labelled by itself.
fn is_own(labels: &[Option<usize>], line: usize) -> bool
    requires { line < length labels.now }
    ensures { IsTrue result ↔ (label_at labels.now line ≡ Some line) }
{
    label_at(labels, line) == Some(line)
}

/// Whether the first label is there, and is not the second.
fn is_other(first: Option<usize>, second: Option<usize>) -> bool
    ensures { result ≡ is_other first second }
{
    match (first, second) {
        (Some(first), Some(second)) => first != second,
        (Some(_), None) => true,
        (None, _) => false,
    }
}

/// Whether no line of the row has another label than this one.
fn agree(row: &[usize], labels: &[Option<usize>], label: Option<usize>) -> bool
    requires { AreBelow (length labels.now) row.now }
    ensures { OnTrue result (Agree row.now labels.now label) }
{
    for line in row {
        if is_other(label_at(labels, *line), label) {
            return false;
        }
    }
    true
}

/// Whether a marked line is labelled by itself, and any other line as every line of its row that has a label.
fn is_consistent(row: &[usize], marks: &[bool], labels: &[Option<usize>], line: usize) -> bool
    requires row { AreBelow (length labels.now) row.now }
    requires mark { line < length marks.now }
    requires label { line < length labels.now }
    ensures { OnTrue result (IsConsistent row.now marks.now labels.now line) }
{
    if marks[line] {
        return is_own(labels, line);
    }
    agree(row, labels, label_at(labels, line))
}

/// The lines behind a line.
fn row_at(rows: &[List<usize>], line: usize) -> &[usize]
    requires { line < length rows.now }
    ensures { result.now ≡ row_of rows.now line }
{
    rows[line].as_slice()
}

/// Whether the labels of all lines are as they should be.
pub fn are_consistent(rows: &[List<usize>], marks: &[bool], labels: &[Option<usize>]) -> bool
    requires rows { StayBelow (length rows.now) rows.now }
    requires marks { length marks.now ≡ length rows.now }
    requires labels { length labels.now ≡ length rows.now }
    ensures { OnTrue result ((k : ℕ) → k < length rows.now → IsConsistent (row_of rows.now k) marks.now labels.now k) }
{
    for line in 0..rows.len() {
        if !is_consistent(row_at(rows, line), marks, labels, line) {
            return false;
        }
    }
    true
}

/// A label for a line that is not marked: that of the lines of its row, or the line itself where two of them have different
/// ones.
fn label_by(row: &[usize], labels: &[Option<usize>], line: usize) -> Option<usize>
    requires { AreBelow (length labels.now) row.now }
{
    let mut label = None;
    for next in row {
        let other = label_at(labels, *next);
        if label.is_none() {
            label = other;
        } else if is_other(other, label) {
            return Some(line);
        }
    }
    label
}

/// A label for a line: itself where it is marked.
fn label_for(row: &[usize], marks: &[bool], labels: &[Option<usize>], line: usize) -> Option<usize>
    requires row { AreBelow (length labels.now) row.now }
    requires mark { line < length marks.now }
{
    if marks[line] {
        Some(line)
    } else {
        label_by(row, labels, line)
    }
}

/// Gives a label to each line that has none and for which there is one, from the last to the first, and answers whether
/// there was such a line.
fn label_lines(rows: &[List<usize>], marks: &[bool], labels: &mut Vec<Option<usize>>) -> bool
    requires rows { StayBelow (length rows.now) rows.now }
    requires marks { length marks.now ≡ length rows.now }
    requires labels { length labels.old.items ≡ length rows.now }
    ensures { length labels.new.items ≡ length rows.now }
{
    let mut changed = false;
    for line in (0..rows.len()).rev() {
        if labels[line].is_none() {
            let label = label_for(row_at(rows, line), marks, labels.as_slice(), line);
            changed |= label.is_some();
            labels[line] = label;
        }
    }
    changed
}

/// Labels of all lines, by passes until none gives a label. Whether they are as they should be is for `are_consistent` to
/// say; where they are not, a line that is labelled by itself and not marked has lines of different labels behind it.
pub fn labelled(
    alloc: Global,
    rows: &[List<usize>],
    marks: &[bool],
) -> Result<Vec<Option<usize>>, NoMemory>
    requires rows { StayBelow (length rows.now) rows.now }
    requires marks { length marks.now ≡ length rows.now }
    ensures { IfOk result (λ labels. length labels.items ≡ length rows.now) }
{
    let mut labels = no_labels(alloc, rows.len())?;
    for _pass in 0..rows.len() {
        if !label_lines(rows, marks, &mut labels) {
            return Ok(labels);
        }
    }
    Ok(labels)
}

/// Marks of the lines that are labelled by themselves.
pub fn own_labelled(alloc: Global, labels: &[Option<usize>]) -> Result<Vec<bool>, NoMemory>
    ensures { IfOk result (λ marks. length marks.items ≡ length labels.now) }
{
    let mut marks = vec![in alloc; false; labels.len()]?;
    for line in 0..labels.len() {
        marks[line] = is_own(labels, line);
    }
    Ok(marks)
}

/// `count` marks, all of which are set.
pub fn all_marks(alloc: Global, count: usize) -> Result<Vec<bool>, NoMemory>
    ensures { IfOk result (λ v. v.items ≡ replicate count true) }
{
    Ok(vec![in alloc; true; count]?)
}
