ghost use Rattle.std.specs.Prelude.{◌≡◌, ◌<◌, ◌^◌, map, Some, None, MatchOption, IfSome, length, slice_get};
ghost use Rattle.il_core.specs.Statement.{statement_of, placed};
ghost use Rattle.il_types.specs.Built.{where_declared};
ghost use Rattle.il_types.specs.Counted.{AreCounted};
ghost use Rattle.il_types.specs.Names.{setting, in_force, said, declaration, counts_at};

use crate::counts::Counts;
use crate::names::Names;
use il_core::{Form, Name, Stmt};
use std::marker::Model;

/// Where a name is used: among the statements of a text with their declarations and counts, in a procedure (0: before all of
/// them), at a statement.
#[derive(Drop)]
pub struct Setting<'a> {
    names: &'a Names,
    counts: &'a [Counts],
    stmts: &'a [Stmt],
    owner: usize,
    at: usize,
}

impl<'a> Model for Setting<'a> {
    ghost use Rattle.std.specs.Prelude.{map};
    ghost use Rattle.std.specs.Coded.{codes};
    ghost use Rattle.il_core.specs.Statement.{placed};
    ghost use Rattle.il_types.specs.Counted.{AreCounted};
    ghost use Rattle.il_types.specs.Names.{Setting};
    ghost use Rattle.il_types.specs.TreeCode.{tree_code};

    ghost Value = { Setting };

    ghost coded = { Prim.hlevel (codes, tree_code (Prim.hlevel codes)) };

    ghost view = { λ s. record { table = s.names.now; stmts = map placed s.stmts.now; owner = s.owner; at = s.at } };

    ghost invariant = { λ s. AreCounted (map placed s.stmts.now) s.counts.now };
}

impl<'a> Setting<'a> {
    /// The setting at statement `at` in procedure `owner` of a text with its declarations and the counts in front of its statements.
    pub fn new(
        names: &'a Names,
        counts: &'a [Counts],
        stmts: &'a [Stmt],
        owner: usize,
        at: usize,
    ) -> Setting<'a>
        requires { AreCounted (map placed stmts.now) counts.now }
        ensures { result ≡ setting names.now (map placed stmts.now) owner at }
    {
        Setting {
            names,
            counts,
            stmts,
            owner,
            at,
        }
    }

    /// The same at another statement.
    pub fn at_statement(&self, at: usize) -> Setting<'a>
        ensures { result ≡ record self.now { at = at } }
    {
        Setting {
            names: self.names,
            counts: self.counts,
            stmts: self.stmts,
            owner: self.owner,
            at,
        }
    }

    /// The same text, at statement `at` of procedure `owner`.
    pub fn in_procedure(&self, owner: usize, at: usize) -> Setting<'a>
        ensures { result ≡ setting self.now.table self.now.stmts owner at }
    {
        Setting {
            names: self.names,
            counts: self.counts,
            stmts: self.stmts,
            owner,
            at,
        }
    }

    /// The setting of the statement that declares a name: that statement, in the procedure that it stands in.
    pub fn where_declared(&self, spot: (usize, usize)) -> Setting<'a>
        requires { spot.0 < length self.now.stmts }
        ensures { result ≡ where_declared self.now spot }
    {
        let owner = self.counts_before(spot.0).procedures;
        self.in_procedure(owner, spot.0)
    }

    /// The declaration of a name that is in force here: its statement's number, and which of that statement's names it is; `None` where
    /// there is none. One or two look-ups.
    pub fn in_force(&self, name: &Name) -> Option<(usize, usize)>
        ensures { result ≡ in_force self.now name.now }
    {
        self.names.in_force(self.owner, self.at, name)
    }

    /// A statement that is there, and what it says.
    fn said(&self, spot: (usize, usize)) -> Option<((usize, usize), &'a Form)>
        ensures value { MatchOption result (said self.now.stmts spot ≡ None) (λ d. said self.now.stmts spot ≡ Some (d.0, statement_of d.1.now)) }
        ensures within { IfSome result (λ d. d.0.0 < length self.now.stmts) }
    {
        match self.stmts.get(spot.0) {
            None => None,
            Some(stmt) => Some((spot, &stmt.form)),
        }
    }

    /// The number of the statement.
    pub fn at(&self) -> usize
        ensures { result ≡ self.now.at }
    {
        self.at
    }

    /// The number of the procedure.
    pub fn owner(&self) -> usize
        ensures { result ≡ self.now.owner }
    {
        self.owner
    }

    /// The statements of the text.
    pub fn stmts(&self) -> &'a [Stmt]
        ensures { map placed result.now ≡ self.now.stmts }
    {
        self.stmts
    }

    /// The statement.
    pub fn stmt(&self) -> &'a Stmt
        requires { self.now.at < length self.now.stmts }
        ensures { slice_get self.now.stmts self.now.at ≡ Some (placed result.now) }
    {
        let stmts = self.stmts;
        &stmts[self.at]
    }

    /// The counts in front of statement `at`; there are fewer than 2^63 statements. Constant time.
    pub fn counts_before(&self, at: usize) -> Counts
        requires { at < length self.now.stmts }
        ensures counts { result ≡ counts_at self.now.stmts at }
        ensures few { length self.now.stmts < 2 ^ 63 }
    {
        let counts = self.counts;
        counts[at]
    }
}

/// The declaration of a name that is in force where it is used: its statement's number, which of that statement's names it is, and the
/// form that makes it. `None` where there is none. One or two look-ups.
pub fn declaration<'a>(setting: &Setting<'a>, name: &Name) -> Option<((usize, usize), &'a Form)>
    ensures value { MatchOption result (declaration setting.now name.now ≡ None) (λ d. declaration setting.now name.now ≡ Some (d.0, statement_of d.1.now)) }
    ensures within { IfSome result (λ d. d.0.0 < length setting.now.stmts) }
{
    match setting.in_force(name) {
        None => None,
        Some(spot) => setting.said(spot),
    }
}
