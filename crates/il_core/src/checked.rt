use crate::{Line, List, Name, Place};
use std::marker::Model;

/// A checked procedure. Line 0 is its precondition and the last line its end, each target is a line, each expression is
/// well typed with small static bounds, and the places are the variables and then the OLD copies of the INOUT variables.
#[derive(Debug, Drop)]
pub struct CheckedProc {
    name: Name,
    places: List<Place>,
    lines: List<Line>,
}

impl Model for CheckedProc {
    ghost use Rattle.il_core.specs.Checked.{NamedProcedure, IsChecked, procedure_of};
    ghost use Rattle.il_core.specs.contracts.line.Expr as e;
    ghost use Rattle.std.specs.Coded.{codes};

    ghost Value = { NamedProcedure };

    ghost coded = { Prim.hlevel (codes, e.the_row.coded) };

    ghost view = { λ p. record { name = p.name; places = p.places; lines = p.lines } };

    ghost invariant = { λ p. IsChecked (procedure_of (record { name = p.name; places = p.places; lines = p.lines })) };
}

impl CheckedProc {
    ghost use Rattle.std.specs.Prelude.{◌≡◌};
    ghost use Rattle.il_core.specs.Checked.{IsChecked, procedure_of};

    /// The procedure of these three. It takes no memory and keeps them.
    pub fn new(name: Name, places: List<Place>, lines: List<Line>) -> CheckedProc
        requires { IsChecked (procedure_of (record { name = name; places = places; lines = lines })) }
        ensures { result ≡ record { name = name; places = places; lines = lines } }
    {
        CheckedProc {
            name,
            places,
            lines,
        }
    }

    /// The procedure's name.
    pub fn name(&self) -> Name
        ensures value { result ≡ self.now.name }
        ensures checked { IsChecked (procedure_of self.now) }
    {
        self.name
    }

    /// Its variables in the order of their declarations, then the OLD copies of its INOUT variables in that order.
    pub fn places(&self) -> &List<Place>
        ensures value { result.now ≡ self.now.places }
        ensures checked { IsChecked (procedure_of self.now) }
    {
        &self.places
    }

    /// Its lines, from the precondition to the end.
    pub fn lines(&self) -> &List<Line>
        ensures value { result.now ≡ self.now.lines }
        ensures checked { IsChecked (procedure_of self.now) }
    {
        &self.lines
    }
}

/// A checked text: its title, its profile (2 where a range wraps, else 1) and 1 to 64 procedures.
#[derive(Drop)]
pub struct CheckedText {
    title: Name,
    profile: u8,
    procs: List<CheckedProc>,
}

impl Model for CheckedText {
    ghost use Rattle.il_core.specs.Checked.{NamedText, IsCheckedText};
    ghost use Rattle.il_core.specs.contracts.line.Expr as e;
    ghost use Rattle.std.specs.Coded.{codes};

    ghost Value = { NamedText };

    ghost coded = { Prim.hlevel (codes, e.the_row.coded) };

    ghost view = { λ t. record { title = t.title; profile = t.profile; procs = t.procs } };

    ghost invariant = { λ t. IsCheckedText (record { title = t.title; profile = t.profile; procs = t.procs }) };
}

impl CheckedText {
    ghost use Rattle.std.specs.Prelude.{◌≡◌};
    ghost use Rattle.il_core.specs.Checked.{IsCheckedText};

    /// The text of these three. It takes no memory and keeps them.
    pub fn new(title: Name, procs: List<CheckedProc>, profile: u8) -> CheckedText
        requires { IsCheckedText (record { title = title; profile = profile; procs = procs }) }
        ensures { result ≡ record { title = title; profile = profile; procs = procs } }
    {
        CheckedText {
            title,
            profile,
            procs,
        }
    }

    /// The text's title.
    pub fn title(&self) -> Name
        ensures { result ≡ self.now.title }
    {
        self.title
    }

    /// The text's profile, 1 or 2.
    pub fn profile(&self) -> u8
        ensures value { result ≡ self.now.profile }
        ensures checked { IsCheckedText self.now }
    {
        self.profile
    }

    /// The text's procedures, in the order of their declarations.
    pub fn procs(&self) -> &List<CheckedProc>
        ensures value { result.now ≡ self.now.procs }
        ensures checked { IsCheckedText self.now }
    {
        &self.procs
    }
}
