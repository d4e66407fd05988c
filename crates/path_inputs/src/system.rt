//! The literals of a path and the places of its procedure as a system of difference constraints with splits.
ghost use Rattle.std.specs.Prelude.{◌≡◌, ◌+◌, ◌++◌, ◌≤◌, All, map, flat_map, length, IfOk};
ghost use Rattle.il_core.specs.Run.{inout_from};
ghost use Rattle.il_core.specs.Places.{AreCheckedPlaces};
ghost use Rattle.sym_simplify.specs.Literal.{literal_form_of};
ghost use Rattle.sym_simplify.specs.Easy.{IsKept};
ghost use Rattle.path_inputs.specs.Bounding.{range_of, not_above, equal_from, copies, constraints_in, splits_in, constraints_of_literal, splits_of_literal};

use crate::reading::{Reading, read};
use difference::{Constraint, Range64, Split};
use il_core::{Mode, NoMemory, Place};
use std::alloc::Global;
use sym_simplify::LitForm;

/// A system of difference constraints with splits.
#[derive(Drop)]
pub struct System {
    /// The range of each place.
    pub ranges: Vec<Range64>,
    /// What each input meets that meets the easy literals other than `/=`.
    pub constraints: Vec<Constraint>,
    /// The sides of each easy `/=`, in the order of the literals.
    pub splits: Vec<Split>,
}

/// The ranges of the places.
fn ranges_of(alloc: Global, places: &[Place]) -> Result<Vec<Range64>, NoMemory>
    ensures { IfOk result (λ v. v.items ≡ map range_of places.now) }
{
    let mut ranges = Vec::new(alloc);
    for place in places {
        ranges.push(Range64 {
            least: place.least,
            greatest: place.greatest,
        })?;
    }
    Ok(ranges)
}

/// The numbers of the INOUT variables.
fn inout(alloc: Global, places: &[Place]) -> Result<Vec<usize>, NoMemory>
    ensures { IfOk result (λ v. v.items ≡ inout_from 0 places.now) }
{
    let mut found = Vec::new(alloc);
    for (index, place) in places.iter().enumerate() {
        if !place.old && place.mode == Mode::InOut {
            found.push(index)?;
        }
    }
    Ok(found)
}

/// One place is at most another.
fn not_above(place: usize, other: usize) -> Constraint
    ensures { result ≡ not_above place other }
{
    Constraint {
        left: Some(place),
        right: Some(other),
        bound: 0,
    }
}

/// The places from `first` on equal those named.
fn equal_from(alloc: Global, first: usize, variables: &[usize]) -> Result<Vec<Constraint>, NoMemory>
    requires { first + length variables.now ≤ 64 }
    ensures { IfOk result (λ v. v.items ≡ equal_from first variables.now) }
{
    let mut constraints = Vec::new(alloc);
    for (index, variable) in variables.iter().enumerate() {
        constraints.push(not_above(first + index, *variable))?;
        constraints.push(not_above(*variable, first + index))?;
    }
    Ok(constraints)
}

/// Each OLD copy equals its variable.
fn equal_copies(
    alloc: Global,
    places: &[Place],
    variables: &[usize],
) -> Result<Vec<Constraint>, NoMemory>
    requires places { AreCheckedPlaces places.now }
    requires variables { variables.now ≡ inout_from 0 places.now }
    ensures { IfOk result (λ v. v.items ≡ copies places.now 0) }
{
    equal_from(alloc, places.len() - variables.len(), variables)
}

/// Each OLD copy equals its variable at line 0; nothing is asked elsewhere.
fn copies(alloc: Global, places: &[Place], pc: usize) -> Result<Vec<Constraint>, NoMemory>
    requires { AreCheckedPlaces places.now }
    ensures { IfOk result (λ v. v.items ≡ copies places.now pc) }
{
    if pc != 0 {
        return Ok(Vec::new(alloc));
    }
    let variables = inout(alloc, places)?;
    equal_copies(alloc, places, &variables)
}

impl System {
    /// Adds what a literal asks of the places.
    fn add(&mut self, reading: Reading) -> Result<(), NoMemory>
        ensures ranges { self.new.ranges ≡ self.old.ranges }
        ensures constraints { IfOk result (λ _. self.new.constraints.items ≡ self.old.constraints.items ++ constraints_in reading) }
        ensures splits { IfOk result (λ _. self.new.splits.items ≡ self.old.splits.items ++ splits_in reading) }
    {
        match reading {
            Reading::Free => {}
            Reading::One(constraint) => self.constraints.push(constraint)?,
            Reading::Two(first, second) => {
                self.constraints.push(first)?;
                self.constraints.push(second)?;
            }
            Reading::Either(split) => self.splits.push(split)?,
        }
        Ok(())
    }
}

/// The system of literals over the places of a procedure, for inputs of line `pc`.
pub fn system_of(
    alloc: Global,
    places: &[Place],
    pc: usize,
    literals: &[LitForm],
) -> Result<System, NoMemory>
    requires places { AreCheckedPlaces places.now }
    requires kept { All (λ l. IsKept (literal_form_of l)) literals.now }
    ensures ranges { IfOk result (λ s. s.ranges.items ≡ map range_of places.now) }
    ensures constraints { IfOk result (λ s. s.constraints.items ≡ copies places.now pc ++ flat_map constraints_of_literal literals.now) }
    ensures splits { IfOk result (λ s. s.splits.items ≡ flat_map splits_of_literal literals.now) }
{
    let mut system = System {
        ranges: ranges_of(alloc, places)?,
        constraints: copies(alloc, places, pc)?,
        splits: Vec::new(alloc),
    };
    for literal in literals {
        system.add(read(literal))?;
    }
    Ok(system)
}
