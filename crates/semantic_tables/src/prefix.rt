//! The decisions and the literals of a path as far as a walk has come.
ghost use Rattle.std.specs.Prelude.{◌≡◌, ◌≤◌, ℕ, Some, length, map, All, IfOk};
ghost use Rattle.sym_terms.specs.Comparison.{denied, denied_relation};
ghost use Rattle.sym_terms.specs.Grown.{Keeps};
ghost use Rattle.sym_terms.specs.Nodes.{terms_of};
ghost use Rattle.sym_simplify.specs.Form.{Form};
ghost use Rattle.sym_simplify.specs.Norm.{norm};
ghost use Rattle.sym_simplify.specs.Held.{form_of};
ghost use Rattle.sym_simplify.specs.Literal.{literal_form_of};
ghost use Rattle.semantic_tables.specs.Row.{row_of, comparison_form};
ghost use Rattle.semantic_tables.specs.Fit.{HasSoundLiterals};
ghost use Rattle.semantic_tables.specs.Hazards.{hazard_of, IsLeastOf, HasLeast};
ghost use Rattle.il_core.specs.declared.line.Stop.TheVariants.{Halted};
ghost use Rattle.semantic_tables.specs.Walk.{comparison_at, IsEnvironment, IsCompared, IsPrefix, prefix_forms};

use crate::exploration::Exploration;
use crate::hazard::Hazard;
use crate::row::Row;
use il_core::{Halt, List, NoMemory, Relation, Stop};
use std::alloc::Global;
use sym_simplify::{Forms, LitForm, Normal};
use sym_terms::TermId;

/// A comparison by the numbers of its sides.
#[derive(Clone, Copy)]
pub struct Sides {
    /// The left side.
    pub left: TermId,
    /// How it compares.
    pub relation: Relation,
    /// The right side.
    pub right: TermId,
}

/// The decisions and the literals so far.
#[derive(Drop)]
pub struct Prefix {
    /// The decisions.
    pub path: Vec<bool>,
    /// The sides of the literals.
    pub sides: Vec<Sides>,
    /// The forms of the literals.
    pub literals: Vec<LitForm>,
    /// How many of the first literals are known to be plainly refuted, if any are; all of them then are, too.
    pub refuted: Option<usize>,
    /// How many of the first literals are known not to be.
    pub feasible: usize,
}

/// The relation that holds of two numbers exactly where the given one does not.
fn denied(relation: Relation) -> Relation
    ensures { result ≡ denied_relation relation }
{
    match relation {
        Relation::Eq => Relation::Ne,
        Relation::Ne => Relation::Eq,
        Relation::Lt => Relation::Ge,
        Relation::Le => Relation::Gt,
        Relation::Gt => Relation::Le,
        Relation::Ge => Relation::Lt,
    }
}

impl Sides {
    ghost use Rattle.std.specs.Prelude.{◌≡◌, List};
    ghost use Rattle.sym_terms.specs.Comparison as spec;
    ghost use Rattle.sym_terms.specs.declared.node.TermNode.{TermNode};
    ghost use Rattle.semantic_tables.specs.Walk.{comparison_at};

    /// The comparison of the same sides that holds exactly where this one does not.
    pub fn denied(self) -> Sides
        ensures sides { (nodes : List TermNode) → comparison_at nodes result ≡ spec.denied (comparison_at nodes self) }
        ensures left { result.left ≡ self.left }
        ensures right { result.right ≡ self.right }
    {
        Sides {
            left: self.left,
            relation: denied(self.relation),
            right: self.right,
        }
    }
}

/// A count, where it is at most as given.
fn at_most(count: Option<usize>, most: usize) -> Option<usize>
    ensures { (n : ℕ) → result ≡ Some n → (count ≡ Some n) × (n ≤ most) }
{
    match count {
        Some(given) => { if given <= most { Some(given) } else { None } }
        None => None,
    }
}

impl Prefix {
    ghost use Rattle.std.specs.Prelude.{◌≡◌, ◌<◌, ◌≤◌, ◌∷◌, ◌++◌, ◌-◌, ℕ, Some, None, [], length, take, IfOk};
    ghost use Rattle.sym_terms.specs.Grown.{Keeps};
    ghost use Rattle.semantic_tables.specs.Row.{comparison_form};
    ghost use Rattle.semantic_tables.specs.Walk.{comparison_at, ComparesSmall, IsOneMore};

    /// No decision.
    pub fn new(alloc: Global) -> Prefix
        ensures path { result.path.items ≡ [] }
        ensures sides { result.sides.items ≡ [] }
        ensures literals { result.literals.items ≡ [] }
        ensures refuted { result.refuted ≡ None }
    {
        Prefix {
            path: Vec::new(alloc),
            sides: Vec::new(alloc),
            literals: Vec::new(alloc),
            refuted: None,
            feasible: 0,
        }
    }

    /// Adds a decision and its literal.
    pub fn add(&mut self, forms: &mut Forms, met: bool, sides: Sides) -> Result<(), NoMemory>
        requires left { sides.left.index < length forms.old.terms }
        requires right { sides.right.index < length forms.old.terms }
        requires small { ComparesSmall (comparison_at forms.old.terms sides) }
        ensures path { IfOk result (λ _. self.new.path.items ≡ self.old.path.items ++ met ∷ []) }
        ensures sides { IfOk result (λ _. self.new.sides.items ≡ self.old.sides.items ++ sides ∷ []) }
        ensures literals { IfOk result (λ _. IsOneMore (comparison_form (comparison_at forms.old.terms sides)) self.old.literals.items self.new.literals.items) }
        ensures refuted { self.new.refuted ≡ self.old.refuted }
        ensures terms { forms.new.terms ≡ forms.old.terms }
    {
        let literal = forms.literal(sides.relation, sides.left, sides.right)?;
        self.path.push(met)?;
        self.sides.push(sides)?;
        self.literals.push(literal)?;
        Ok(())
    }

    /// Takes the last decision back, and what is known of it.
    pub fn turn_back(&mut self)
        ensures path { self.new.path.items ≡ take (length self.old.path.items - 1) self.old.path.items }
        ensures sides { self.new.sides.items ≡ take (length self.old.sides.items - 1) self.old.sides.items }
        ensures literals { self.new.literals.items ≡ take (length self.old.literals.items - 1) self.old.literals.items }
        ensures refuted { (count : ℕ) → self.new.refuted ≡ Some count → (self.old.refuted ≡ Some count) × (count ≤ length self.new.literals.items) }
    {
        self.path.pop();
        self.sides.pop();
        self.literals.pop();
        self.feasible = self.feasible.min(self.literals.len());
        self.refuted = at_most(self.refuted, self.literals.len());
    }
}

/// A list of the decisions.
fn path_of(alloc: Global, path: &[bool]) -> Result<List<bool>, NoMemory>
    ensures { IfOk result (λ l. l ≡ path.now) }
{
    let mut copy = Vec::new(alloc);
    copy.extend_from_slice(path)?;
    Ok(List::from_vec(copy))
}

/// The forms of the comparisons with these sides, which are known by number.
fn literals_of(alloc: Global, forms: &mut Forms, sides: &[Sides]) -> Result<List<LitForm>, NoMemory>
    requires { All (IsCompared forms.old.terms) sides.now }
    ensures forms { IfOk result (λ l. map literal_form_of l ≡ map (λ s. comparison_form (comparison_at forms.old.terms s)) sides.now) }
    ensures terms { forms.new.terms ≡ forms.old.terms }
{
    let mut literals = List::new(alloc);
    for side in sides {
        literals.push(forms.literal(side.relation, side.left, side.right)?)?;
    }
    Ok(literals)
}

/// The normal terms of the numbered terms.
fn values_of(alloc: Global, forms: &mut Forms, env: &[TermId]) -> Result<List<Normal>, NoMemory>
    requires { IsEnvironment (length env.now) forms.old.terms env.now }
    ensures values { IfOk result (λ l. map form_of l ≡ map norm (terms_of forms.old.terms env.now)) }
    ensures terms { forms.new.terms ≡ forms.old.terms }
{
    let mut values = List::new(alloc);
    for id in env {
        let form = forms.norm(*id)?;
        values.push(forms.read(form)?)?;
    }
    Ok(values)
}

/// The row of a path that ends here.
pub fn row_at(
    alloc: Global,
    forms: &mut Forms,
    env: &[TermId],
    prefix: &Prefix,
    stop: Stop,
) -> Result<Row, NoMemory>
    requires env { IsEnvironment (length env.now) forms.old.terms env.now }
    requires prefix { IsPrefix (length env.now) forms.old.terms prefix.now }
    ensures row { IfOk result (λ r. row_of r ≡ record { path = prefix.now.path.items; literals = prefix_forms prefix.now; stop = stop; values = map norm (terms_of forms.old.terms env.now) }) }
    ensures sound { IfOk result (HasSoundLiterals (length env.now)) }
    ensures terms { forms.new.terms ≡ forms.old.terms }
{
    Ok(Row {
        path: path_of(alloc, &prefix.path)?,
        literals: literals_of(alloc, forms, &prefix.sides)?,
        stop,
        values: values_of(alloc, forms, env)?,
    })
}

/// The hazard of a path that ends here, whose least input is given.
pub fn hazard_at(
    exploration: Exploration<'_>,
    forms: &mut Forms,
    prefix: &Prefix,
    halt: Halt,
    least: Option<List<i64>>,
) -> Result<Hazard, NoMemory>
    requires prefix { IsPrefix (length exploration.proc.now.places) forms.old.terms prefix.now }
    requires least { IsLeastOf exploration.proc.now.places exploration.line (prefix_forms prefix.now) least }
    ensures hazard { IfOk result (λ h. hazard_of h ≡ record { path = prefix.now.path.items; literals = prefix_forms prefix.now; stop = Halted halt }) }
    ensures least { IfOk result (HasLeast exploration.entry.proc.now.places exploration.entry.line) }
    ensures terms { forms.new.terms ≡ forms.old.terms }
{
    Ok(Hazard {
        path: path_of(exploration.alloc, &prefix.path)?,
        literals: literals_of(exploration.alloc, forms, &prefix.sides)?,
        halt,
        least,
    })
}
