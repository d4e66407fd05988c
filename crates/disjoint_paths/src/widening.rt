//! The search for a second path beside a first one: which lines it has opened, and how.
ghost use Rattle.std.specs.Prelude.{◌≡◌, ◌≢◌, ℕ, ◌+◌, ◌<◌, ◌≤◌, ◌∷◌, ◌++◌, [], length, IfOk, IfSome, IfNone, slice_index, slice_set};
ghost use Rattle.flow_graph.specs.Search.{row_of};
ghost use Rattle.disjoint_paths.specs.declared.widening.Role.TheVariants.{Far, Open};
ghost use Rattle.disjoint_paths.specs.Widening.{IsTurn, IsEnd, IsKept, opened_at};
ghost use Rattle.disjoint_paths.specs.Asked.{IsAsked, IsState, IsLater, arcs_of, targets_of};

use il_core::{List, NoMemory};

/// What is asked of a search: a further path from a line to a target, beside a first one.
#[derive(Clone, Copy, Drop)]
pub struct Question<'a> {
    /// For each line the lines that follow it.
    pub rows: &'a [List<usize>],
    /// For each line whether it is a target.
    pub targets: &'a [bool],
    /// The line from which the paths start.
    pub tail: usize,
    /// The lines of the first path behind the tail; empty where there is none yet.
    pub path: &'a [usize],
}

/// What a line is to the search.
#[derive(Clone, Copy)]
pub enum Role {
    /// Neither open nor on the first path.
    Far,
    /// At this index of the first path, and not open.
    OnPath(usize),
    /// Open.
    Open,
}

/// How a line came to be open.
#[derive(Clone, Copy)]
pub enum Origin {
    /// It is the tail.
    Tail,
    /// By an arc from the open line of this number.
    Step(usize),
    /// It is on the first path at the index `place`, and an arc from the open line of number `before` leads to a later
    /// line of the path.
    Jump { before: usize, place: usize },
}

/// An open line: one path leads to it, and another one to the first path at the index `from`, and on along that.
#[derive(Clone, Copy)]
pub struct Opened {
    /// The line.
    pub line: usize,
    /// How it came to be open.
    pub origin: Origin,
    /// Where its other path comes to the first path.
    pub from: usize,
}

/// What the search does with a line that an arc from an open line enters.
#[derive(Clone, Copy)]
pub enum Turn {
    /// It is a target, and the second path may end there.
    Ends,
    /// It becomes open.
    Opens,
    /// The lines of the first path before this index become open.
    Leaps(usize),
    /// Nothing.
    Stays,
}

/// The state of a search.
#[derive(Drop)]
pub struct Widening {
    /// What each line is.
    pub roles: Vec<Role>,
    /// The open lines, in the order in which they came.
    pub opened: Vec<Opened>,
    /// The index of the first line of the first path that is not open.
    pub start: usize,
}

impl<'a> Question<'a> {
    /// The lines that follow `line`.
    pub fn row(&self, line: usize) -> &'a [usize]
        requires { line < length self.now.rows.now }
        ensures { result.now ≡ row_of self.now.rows.now line }
    {
        self.rows[line].as_slice()
    }

    /// What the search does with `line`.
    fn turn(&self, state: &Widening, line: usize) -> Turn
        requires asked { IsAsked self.now }
        requires state { IsState self.now state.now }
        requires within { line < length self.now.rows.now }
        ensures { IsTurn (targets_of self.now) self.now.tail self.now.path.now state.now.opened.items state.now.start line result }
    {
        if line == self.tail {
            return if self.targets[line] {
                Turn::Ends
            } else {
                Turn::Stays
            };
        }
        match state.roles[line] {
            Role::Open => Turn::Stays,
            Role::OnPath(place) => Turn::Leaps(place),
            Role::Far if self.targets[line] => Turn::Ends,
            Role::Far => Turn::Opens,
        }
    }
}

impl Widening {
    /// Makes `line` open.
    fn add(&mut self, line: usize, origin: Origin, from: usize) -> Result<(), NoMemory>
        requires { line < length self.old.roles.items }
        ensures roles { IfOk result (λ _. self.new.roles.items ≡ slice_set self.old.roles.items line Open) }
        ensures opened { IfOk result (λ _. self.new.opened.items ≡ self.old.opened.items ++ (record { line = line; origin = origin; from = from }) ∷ []) }
        ensures start { self.new.start ≡ self.old.start }
    {
        self.roles[line] = Role::Open;
        self.opened.push(Opened { line, origin, from })?;
        Ok(())
    }

    /// Makes the lines of the first path up to the index `to` open: an arc leads there from the open line `before`.
    fn leap(&mut self, asked: &Question, before: usize, to: usize) -> Result<(), NoMemory>
        requires asked { IsAsked asked.now }
        requires state { IsState asked.now self.old }
        requires known { before < length self.old.opened.items }
        requires ahead { self.old.start ≤ to }
        requires within { to < length asked.now.path.now }
        requires arc { arcs_of asked.now (opened_at self.old.opened.items before).line (slice_index asked.now.path.now to) }
        requires away { slice_index asked.now.path.now to ≢ asked.now.tail }
        ensures state { IfOk result (λ _. IsState asked.now self.new) }
        ensures grown { IfOk result (λ _. IsLater asked.now self.old self.new) }
        ensures start { IfOk result (λ _. self.new.start ≡ to) }
    {
        for place in self.start..to {
            self.add(asked.path[place], Origin::Jump { before, place }, to)?;
        }
        self.start = to;
        Ok(())
    }

    /// Opens what arcs from the open line of number `before` let be open; a target at which a second path may end.
    pub fn visit(&mut self, asked: &Question, before: usize) -> Result<Option<usize>, NoMemory>
        requires asked { IsAsked asked.now }
        requires state { IsState asked.now self.old }
        requires known { before < length self.old.opened.items }
        ensures state { IfOk result (λ _. IsState asked.now self.new) }
        ensures grown { IfOk result (λ _. IsLater asked.now self.old self.new) }
        ensures some { IfOk result (λ o. IfSome o (λ v. arcs_of asked.now (opened_at self.old.opened.items before).line v × IsEnd (targets_of asked.now) asked.now.tail asked.now.path.now self.new.opened.items v)) }
        ensures none { IfOk result (λ o. IfNone o ((v : ℕ) → arcs_of asked.now (opened_at self.old.opened.items before).line v → IsKept (targets_of asked.now) asked.now.path.now self.new.opened.items self.new.start v)) }
    {
        let row = asked.row(self.opened[before].line);
        for line in row {
            match asked.turn(self, *line) {
                Turn::Ends => return Ok(Some(*line)),
                Turn::Opens => {
                    let from = self.opened[before].from;
                    self.add(*line, Origin::Step(before), from)?;
                }
                Turn::Leaps(place) => self.leap(asked, before, place)?,
                Turn::Stays => {}
            }
        }
        Ok(None)
    }
}
