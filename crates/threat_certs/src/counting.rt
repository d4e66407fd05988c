//! The constraints on the places with the items that count them, and the easy `/=` with their places among the literals.
ghost use Rattle.std.specs.Prelude.{◌≡◌, ◌++◌, ◌∷◌, [], All, map, length, count_by, IfOk};
ghost use Rattle.il_core.specs.Run.{is_variable};
ghost use Rattle.sym_simplify.specs.Literal.{literal_form_of};
ghost use Rattle.sym_simplify.specs.Easy.{IsKept};
ghost use Rattle.path_inputs.specs.Bounding.{splits_of};
ghost use Rattle.threat_certs.specs.Counting.{relation_items, items_in, items_from, copy_items, fork_at, forks_from};

use difference::{Constraint, Split};
use il_core::{Item, NoMemory, Place, Relation};
use path_inputs::{Reading, read};
use std::alloc::Global;
use sym_simplify::{LitForm, multiple_in};

/// Constraints on the places, and the item that counts each.
#[derive(Drop)]
pub struct Bounds {
    /// The constraints.
    pub constraints: Vec<Constraint>,
    /// For each constraint, the item whose quantity is how far values are from its bound.
    pub items: Vec<Item>,
}

/// An easy `/=`.
#[derive(Clone, Copy)]
pub struct Fork {
    /// Its place among the literals.
    pub literal: usize,
    /// Its sides.
    pub split: Split,
}

impl Bounds {
    /// These bounds and one more.
    pub fn with(
        &self,
        alloc: Global,
        constraint: Constraint,
        item: Item,
    ) -> Result<Bounds, NoMemory>
        ensures constraints { IfOk result (λ b. b.constraints.items ≡ self.now.constraints.items ++ constraint ∷ []) }
        ensures items { IfOk result (λ b. b.items.items ≡ self.now.items.items ++ item ∷ []) }
    {
        let mut constraints = Vec::from_slice(alloc, &self.constraints)?;
        constraints.push(constraint)?;
        let mut items = Vec::from_slice(alloc, &self.items)?;
        items.push(item)?;
        Ok(Bounds { constraints, items })
    }
}

/// Adds the items that count the constraints of a multiple that is compared like this.
fn add_relation(items: &mut Vec<Item>, literal: usize, relation: Relation) -> Result<(), NoMemory>
    ensures { IfOk result (λ _. items.new.items ≡ items.old.items ++ relation_items literal relation) }
{
    match relation {
        Relation::Eq => {
            items.push(Item::Up(literal))?;
            items.push(Item::Down(literal))?;
        }
        Relation::Ne => {}
        Relation::Lt | Relation::Le => items.push(Item::Up(literal))?,
        Relation::Gt | Relation::Ge => items.push(Item::Down(literal))?,
    }
    Ok(())
}

/// Adds the items that count the constraints of a literal.
fn add_items(items: &mut Vec<Item>, literal: usize, form: &LitForm) -> Result<(), NoMemory>
    ensures { IfOk result (λ _. items.new.items ≡ items.old.items ++ items_in literal (literal_form_of form.now)) }
{
    match form {
        LitForm::Always => {}
        LitForm::Never => items.push(Item::Never(literal))?,
        LitForm::Keep(kept) => match multiple_in(&kept.sum) {
            Some(_) => add_relation(items, literal, kept.relation)?,
            None => {}
        },
    }
    Ok(())
}

/// The number of places that are variables.
fn variables_among(places: &[Place]) -> usize
    ensures { result ≡ count_by is_variable places.now }
{
    places.iter().filter(|place| !place.old).count()
}

/// The items that count the constraints on OLD copies, which stand at line 0 alone.
fn copy_items(alloc: Global, places: &[Place], pc: usize) -> Result<Vec<Item>, NoMemory>
    ensures { IfOk result (λ v. v.items ≡ copy_items places.now pc) }
{
    let mut items = Vec::new(alloc);
    if pc != 0 {
        return Ok(items);
    }
    for copy in variables_among(places)..places.len() {
        items.push(Item::OldUp(copy))?;
        items.push(Item::OldDown(copy))?;
    }
    Ok(items)
}

/// The items that count the constraints which literals and OLD copies put on the places.
pub fn items_of(
    alloc: Global,
    places: &[Place],
    pc: usize,
    literals: &[LitForm],
) -> Result<Vec<Item>, NoMemory>
    ensures { IfOk result (λ v. v.items ≡ copy_items places.now pc ++ items_from 0 (map literal_form_of literals.now)) }
{
    let mut items = copy_items(alloc, places, pc)?;
    for (literal, form) in literals.iter().enumerate() {
        add_items(&mut items, literal, form)?;
    }
    Ok(items)
}

/// Adds the fork of a literal, where it is an easy `/=`.
fn add_fork(forks: &mut Vec<Fork>, literal: usize, form: &LitForm) -> Result<(), NoMemory>
    requires { IsKept (literal_form_of form.now) }
    ensures { IfOk result (λ _. forks.new.items ≡ forks.old.items ++ map (fork_at literal) (splits_of (literal_form_of form.now))) }
{
    match read(form) {
        Reading::Free | Reading::One(_) | Reading::Two(_, _) => {}
        Reading::Either(split) => forks.push(Fork { literal, split })?,
    }
    Ok(())
}

/// The easy `/=` among the literals.
pub fn forks_of(alloc: Global, literals: &[LitForm]) -> Result<Vec<Fork>, NoMemory>
    requires { All (λ l. IsKept (literal_form_of l)) literals.now }
    ensures { IfOk result (λ v. v.items ≡ forks_from 0 (map literal_form_of literals.now)) }
{
    let mut forks = Vec::new(alloc);
    for (literal, form) in literals.iter().enumerate() {
        add_fork(&mut forks, literal, form)?;
    }
    Ok(forks)
}
