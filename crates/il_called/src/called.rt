use il_core::{Expr, Line, List, Name, Place};
use std::marker::Model;

/// What a call gives a parameter.
#[derive(Debug, Drop)]
pub enum Argument {
    /// The value of an expression, for a parameter of mode IN.
    Value(Expr),
    /// A variable, for a parameter of mode INOUT or OUT, which is handed back to it.
    Variable(usize),
}

/// A line of a procedure with calls.
#[derive(Debug, Drop)]
pub enum CalledLine {
    /// A line that is no call.
    Own(Line),
    /// A call of the procedure of this number, counted from 0, with an argument for each of its parameters.
    Call(usize, List<Argument>),
}

/// A procedure with calls: its places are its variables, then the OLD copies of its INOUT variables.
#[derive(Debug, Drop)]
pub struct CalledProc {
    /// The procedure's name.
    pub name: Name,
    /// Its places.
    pub places: List<Place>,
    /// Its lines, from the precondition to the end.
    pub lines: List<CalledLine>,
}

/// The line of a written procedure, both counted from 0.
#[derive(Clone, Copy, Debug, PartialEq, Eq)]
pub struct Origin {
    /// The number of the procedure.
    pub procedure: usize,
    /// The line.
    pub line: usize,
}

/// The lines of an expanded procedure that stand for one of its calls.
#[derive(Clone, Copy, Debug, PartialEq, Eq)]
pub struct CallSpan {
    /// The first of them.
    pub first: usize,
    /// The last of them.
    pub last: usize,
    /// The number of the procedure that is called.
    pub callee: usize,
}

/// A checked text with calls: its title, its profile (2 where a range wraps, else 1) and 1 to 64 procedures. Each call
/// names an earlier procedure and fits its parameters, and the procedures are checked once each call is expanded.
#[derive(Drop)]
pub struct CalledText {
    title: Name,
    profile: u8,
    procs: List<CalledProc>,
}

impl Model for CalledText {
    ghost use Rattle.il_called.specs.Called.{HeldText, called_of};
    ghost use Rattle.il_called.specs.CalledText.{IsCalledText};
    ghost use Rattle.il_called.specs.contracts.called.CalledProc as p;
    ghost use Rattle.std.specs.Coded.{codes};

    ghost Value = { HeldText };

    ghost coded = { Prim.hlevel (codes, p.the_row.coded) };

    ghost view = { λ t. record { title = t.title; profile = t.profile; procs = t.procs } };

    ghost invariant = { λ t. IsCalledText (called_of (record { title = t.title; profile = t.profile; procs = t.procs })) };
}

impl CalledText {
    ghost use Rattle.std.specs.Prelude.{◌≡◌};
    ghost use Rattle.il_called.specs.Called.{called_of};
    ghost use Rattle.il_called.specs.CalledText.{IsCalledText};

    /// The text of these three. It takes no memory and keeps them.
    pub fn new(title: Name, procs: List<CalledProc>, profile: u8) -> CalledText
        requires { IsCalledText (called_of (record { title = title; profile = profile; procs = procs })) }
        ensures { result ≡ record { title = title; profile = profile; procs = procs } }
    {
        CalledText {
            title,
            profile,
            procs,
        }
    }

    /// The text's title.
    pub fn title(&self) -> Name
        ensures { result ≡ self.now.title }
    {
        self.title
    }

    /// The text's profile, 1 or 2.
    pub fn profile(&self) -> u8
        ensures value { result ≡ self.now.profile }
        ensures checked { IsCalledText (called_of self.now) }
    {
        self.profile
    }

    /// The text's procedures, in the order of their declarations.
    pub fn procs(&self) -> &List<CalledProc>
        ensures value { result.now ≡ self.now.procs }
        ensures checked { IsCalledText (called_of self.now) }
    {
        &self.procs
    }
}
