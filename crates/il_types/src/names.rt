ghost use Rattle.std.specs.Prelude.{◌≡◌, ◌++◌, ◌∷◌, [], map, Some, None, IfOk, if◌then◌else◌};
ghost use Rattle.std.specs.Map.{lookup};
ghost use Rattle.std.specs.Option.{option_or};
ghost use Rattle.il_core.specs.Statement.{statement_of, placed};
ghost use Rattle.il_types.specs.Names.{same_key, is_taken, earlier, of_procedure, entries_from, entries, front_of, IsDeclared, FindAlike, GoesOn};
ghost use Rattle.il_types.specs.Redeclaration.{IsFirstRedeclaration};
ghost use Rattle.il_types.specs.Rules.{Declares};

use crate::counts::{counts_behind, no_counts};
use il_core::{Code, Form, Name, NoMemory, Refusal, Stmt, TextEnd};
use indexmap::IndexMap;
use std::alloc::Global;
use std::marker::Model;

/// The declarations of a text in their order: under scope and name the number of the statement, and which of its names it is.
#[derive(Drop)]
pub struct Names {
    table: IndexMap<(usize, Name), (usize, usize)>,
}

impl Model for Names {
    ghost use Rattle.il_types.specs.Names.{Table};

    ghost Value = { Table };

    ghost view = { λ n. n.table.entries };
}

/// A statement that redeclares a name: one that is taken.
#[derive(Clone, Copy, Drop)]
pub struct Redeclaration {
    /// The number of the statement, counted from 0.
    pub at: usize,
    /// The first of its names that is taken.
    pub name: Name,
}

/// Declarations of a text, with its first redeclaration.
#[derive(Drop)]
pub struct FirstDeclarations {
    /// Under each name its first declaration.
    pub names: Names,
    /// The first statement that redeclares a name, where there is one.
    pub redeclaration: Option<Redeclaration>,
}

impl Names {
    /// No declarations. It takes no memory.
    pub fn new(alloc: Global) -> Names
        ensures { result ≡ [] }
    {
        Names {
            table: IndexMap::new(alloc),
        }
    }

    fn get(&self, scope: usize, name: &Name) -> Option<(usize, usize)>
        ensures { result ≡ lookup (same_key (scope, name.now)) self.now }
    {
        self.table.get(&(scope, *name)).copied()
    }

    /// Whether a name repeats one of its scope or of the whole text.
    pub(crate) fn is_taken(&self, scope: usize, name: &Name) -> bool
        ensures { result ≡ is_taken self.now (scope, name.now) }
    {
        self.get(0, name).is_some() || self.get(scope, name).is_some()
    }

    fn of_procedure(&self, owner: usize, name: &Name) -> Option<(usize, usize)>
        ensures { result ≡ of_procedure self.now owner name.now }
    {
        if owner == 0 {
            None
        } else {
            self.get(owner, name)
        }
    }

    fn earlier(&self, at: usize, name: &Name) -> Option<(usize, usize)>
        ensures { result ≡ earlier at (lookup (same_key (0, name.now)) self.now) }
    {
        match self.get(0, name) {
            None => None,
            Some(spot) => if spot.0 < at { Some(spot) } else { None },
        }
    }

    /// The declaration of a name that is in force at statement `at` of procedure `owner` (0: before all procedures): that of a variable
    /// of the procedure, or else that of an earlier statement for the whole text. One or two look-ups.
    pub fn in_force(&self, owner: usize, at: usize, name: &Name) -> Option<(usize, usize)>
        ensures { result ≡ option_or (of_procedure self.now owner name.now) (earlier at (lookup (same_key (0, name.now)) self.now)) }
    {
        match self.of_procedure(owner, name) {
            Some(spot) => Some(spot),
            None => self.earlier(at, name),
        }
    }

    /// Puts a declaration of a name behind the others, where the name is not taken; answers whether it was.
    fn declare(
        &mut self,
        scope: usize,
        name: &Name,
        at: usize,
        index: usize,
    ) -> Result<bool, NoMemory>
        ensures taken { IfOk result (λ taken. taken ≡ is_taken self.old (scope, name.now)) }
        ensures names { IfOk result (λ taken. self.new ≡ (if taken then self.old else self.old ++ ((scope, name.now), (at, index)) ∷ [])) }
    {
        if self.is_taken(scope, name) {
            return Ok(true);
        }
        self.table.insert((scope, *name), (at, index))?;
        Ok(false)
    }

    /// Declares the one name of a statement.
    fn declare_one(
        &mut self,
        scope: usize,
        name: &Name,
        at: usize,
    ) -> Result<Option<Name>, NoMemory>
        ensures { IfOk result (λ o. IsDeclared self.old self.new (entries_from scope at 0 (name.now ∷ [])) o) }
    {
        let is_taken = self.declare(scope, name, at, 0)?;
        if is_taken { Ok(Some(*name)) } else { Ok(None) }
    }

    /// Declares the values of an enumeration.
    fn declare_values(&mut self, values: &[Name], at: usize) -> Result<Option<Name>, NoMemory>
        ensures { IfOk result (λ o. IsDeclared self.old self.new (entries_from 0 at 1 values.now) o) }
    {
        for (k, value) in values.iter().enumerate() {
            let is_taken = self.declare(0, value, at, k + 1)?;
            if is_taken {
                return Ok(Some(*value));
            }
        }
        Ok(None)
    }

    /// Declares an enumeration and its values.
    fn declare_enumeration(
        &mut self,
        name: &Name,
        values: &[Name],
        at: usize,
    ) -> Result<Option<Name>, NoMemory>
        ensures { IfOk result (λ o. IsDeclared self.old self.new (entries_from 0 at 0 (name.now ∷ values.now)) o) }
    {
        let is_taken = self.declare(0, name, at, 0)?;
        if is_taken {
            Ok(Some(*name))
        } else {
            self.declare_values(values, at)
        }
    }

    /// Declares the names of statement `at`, in procedure `owner`: a variable in its procedure, all else in the whole text. The answer
    /// is the first name that is taken, and `None` where all are declared. The error comes where memory runs out. Linear in the names of
    /// the statement but for the look-ups by name.
    pub fn declare_all_of(
        &mut self,
        owner: usize,
        at: usize,
        form: &Form,
    ) -> Result<Option<Name>, NoMemory>
        ensures { IfOk result (λ o. IsDeclared self.old self.new (entries owner at (statement_of form.now)) o) }
    {
        match form {
            Form::Const(name, _) => self.declare_one(0, name, at),
            Form::RangeType(name, _, _) => self.declare_one(0, name, at),
            Form::WrapType(name, _, _) => self.declare_one(0, name, at),
            Form::EnumType(name, values) => self.declare_enumeration(name, values.as_slice(), at),
            Form::Proc(name) => self.declare_one(0, name, at),
            Form::Variable(_, name, _) => self.declare_one(owner, name, at),
            _ => Ok(None),
        }
    }

    /// Puts a declaration of a name behind the others, where there is none of that name in its scope.
    fn declare_first(
        &mut self,
        scope: usize,
        name: &Name,
        at: usize,
        index: usize,
    ) -> Result<(), NoMemory>
        ensures { IfOk result (λ _. GoesOn self.old self.new (((scope, name.now), (at, index)) ∷ [])) }
    {
        if self.get(scope, name).is_none() {
            self.table.insert((scope, *name), (at, index))?;
        }
        Ok(())
    }

    /// The same for the values of an enumeration.
    fn declare_first_values(&mut self, values: &[Name], at: usize) -> Result<(), NoMemory>
        ensures { IfOk result (λ _. GoesOn self.old self.new (entries_from 0 at 1 values.now)) }
    {
        for (k, value) in values.iter().enumerate() {
            self.declare_first(0, value, at, k + 1)?;
        }
        Ok(())
    }

    /// The same for an enumeration and its values.
    fn declare_first_enumeration(
        &mut self,
        name: &Name,
        values: &[Name],
        at: usize,
    ) -> Result<(), NoMemory>
        ensures { IfOk result (λ _. GoesOn self.old self.new (entries_from 0 at 0 (name.now ∷ values.now))) }
    {
        self.declare_first(0, name, at, 0)?;
        self.declare_first_values(values, at)
    }

    /// The same for the names of statement `at`, in procedure `owner`.
    fn declare_first_of(&mut self, owner: usize, at: usize, form: &Form) -> Result<(), NoMemory>
        ensures { IfOk result (λ _. GoesOn self.old self.new (entries owner at (statement_of form.now))) }
    {
        match form {
            Form::Const(name, _) => self.declare_first(0, name, at, 0),
            Form::RangeType(name, _, _) => self.declare_first(0, name, at, 0),
            Form::WrapType(name, _, _) => self.declare_first(0, name, at, 0),
            Form::EnumType(name, values) => self.declare_first_enumeration(
                name,
                values.as_slice(),
                at,
            ),
            Form::Proc(name) => self.declare_first(0, name, at, 0),
            Form::Variable(_, name, _) => self.declare_first(owner, name, at, 0),
            _ => Ok(()),
        }
    }
}

/// The declarations of a text up to its first redeclaration: all of them where there is none.
fn declare_until(alloc: Global, stmts: &[Stmt]) -> Result<FirstDeclarations, NoMemory>
    ensures first { IfOk result (λ d. IsFirstRedeclaration (map placed stmts.now) d.redeclaration) }
    ensures whole { IfOk result (λ d. d.redeclaration ≡ None → d.names ≡ (front_of (map placed stmts.now)).table) }
{
    let mut names = Names::new(alloc);
    let mut counts = no_counts();
    for (i, stmt) in stmts.iter().enumerate() {
        let taken = names.declare_all_of(counts.procedures, i, &stmt.form)?;
        match taken {
            None => {}
            Some(name) => {
                return Ok(FirstDeclarations {
                    names,
                    redeclaration: Some(Redeclaration { at: i, name }),
                });
            }
        }
        counts = counts_behind(counts, i, &stmt.form);
    }
    Ok(FirstDeclarations {
        names,
        redeclaration: None,
    })
}

/// The first declaration of each name of a text in its scope.
fn first_names(alloc: Global, stmts: &[Stmt]) -> Result<Names, NoMemory>
    ensures { IfOk result (λ names. FindAlike names (front_of (map placed stmts.now)).table) }
{
    let mut names = Names::new(alloc);
    let mut counts = no_counts();
    for (i, stmt) in stmts.iter().enumerate() {
        names.declare_first_of(counts.procedures, i, &stmt.form)?;
        counts = counts_behind(counts, i, &stmt.form);
    }
    Ok(names)
}

/// The first declaration of each name of a text in its scope, with the first redeclaration of the text: each name is found as among all
/// declarations, and where nothing is declared again these are all of them. The error comes where memory runs out. The time is linear in
/// the text but for the look-ups by name.
pub fn first_declared(alloc: Global, stmts: &[Stmt]) -> Result<FirstDeclarations, NoMemory>
    ensures alike { IfOk result (λ d. FindAlike d.names (front_of (map placed stmts.now)).table) }
    ensures first { IfOk result (λ d. IsFirstRedeclaration (map placed stmts.now) d.redeclaration) }
    ensures whole { IfOk result (λ d. d.redeclaration ≡ None → d.names ≡ (front_of (map placed stmts.now)).table) }
{
    let FirstDeclarations {
        names,
        redeclaration,
    } = declare_until(alloc, stmts)?;
    match redeclaration {
        None => Ok(FirstDeclarations {
            names,
            redeclaration: None,
        }),
        Some(redeclaration) => Ok(FirstDeclarations {
            names: first_names(alloc, stmts)?,
            redeclaration: Some(redeclaration),
        }),
    }
}

/// The declarations of a text, or the first statement that declares a name that is taken (`Code::Twice`, with the name). The time
/// is linear in the text but for the look-ups by name.
pub fn declare_all(alloc: Global, stmts: &[Stmt]) -> Result<Names, TextEnd>
    ensures { Declares (map placed stmts.now) result }
{
    let FirstDeclarations {
        names,
        redeclaration,
    } = declare_until(alloc, stmts)?;
    match redeclaration {
        None => Ok(names),
        Some(redeclaration) => Err(TextEnd::Refused(Refusal {
            code: Code::Twice,
            place: stmts[redeclaration.at].place,
            name: Some(redeclaration.name),
        })),
    }
}
