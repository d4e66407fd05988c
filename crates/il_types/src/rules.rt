ghost use Rattle.std.specs.Prelude.{◌≡◌, ◌<◌, ◌+◌, ◌^◌, ◌∷◌, [], map, Some, None};
ghost use Rattle.il_core.specs.Statement.{statement_of, placed};
ghost use Rattle.il_types.specs.Counted.{AreCounted};
ghost use Rattle.il_types.specs.CountsBelow.{IsBehind};
ghost use Rattle.il_types.specs.Rules.{naming, unnamed, unless, fault, refusal_of, broken, IsRefused, Refuses, passes_with};

use crate::counts::{Counts, counts_behind, no_counts, too_many};
use crate::modes::is_allowed;
use crate::names::Names;
use crate::narrow::is_narrow;
use crate::ranges::has_range;
use crate::setting::Setting;
use crate::typing::is_typed;
use crate::unknown::unknown;
use il_core::{Code, Form, Name, Refusal, Stmt};

/// What a statement breaks: the code, with the name that is told.
#[derive(Clone, Copy, PartialEq, Eq)]
pub struct Found {
    /// Why.
    pub code: Code,
    /// The name at fault.
    pub name: Option<Name>,
}

/// The rules for statements whose names are declared once.
#[derive(Clone, Copy, PartialEq, Eq)]
pub enum Rule {
    /// Each name that is used is declared.
    Known,
    /// Each name and expression is of the kind that is needed.
    Typed,
    /// The modes allow each use of a variable.
    Allowed,
    /// Each range holds a value.
    Filled,
    /// No part of an expression has too wide static bounds.
    Narrow,
    /// There are not too many procedures, lines and places.
    Limited,
}

/// A code with the name at fault.
pub fn naming(code: Code, name: Name) -> Found
    ensures { result ≡ naming code name }
{
    Found {
        code,
        name: Some(name),
    }
}

fn unnamed(code: Code) -> Found
    ensures { result ≡ unnamed code }
{
    Found { code, name: None }
}

/// The code, with no name, unless what it asks is kept.
pub fn unless(kept: bool, code: Code) -> Option<Found>
    ensures { result ≡ unless kept code }
{
    if kept { None } else { Some(unnamed(code)) }
}

/// What a statement breaks of a rule, with the counts in front of it; `None` where it keeps the rule. Linear in the statement but for
/// the look-ups by name.
pub fn fault(rule: Rule, setting: &Setting<'_>, counts: Counts, form: &Form) -> Option<Found>
    requires behind { IsBehind counts setting.now.at }
    requires room { setting.now.at + 1 < 2 ^ 64 }
    ensures { result ≡ fault rule setting.now counts (statement_of form.now) }
{
    match rule {
        Rule::Known => match unknown(setting, form) {
            None => None,
            Some(name) => Some(naming(Code::Unknown, name)),
        },
        Rule::Typed => unless(is_typed(setting, form), Code::Typing),
        Rule::Allowed => unless(is_allowed(setting, form), Code::Access),
        Rule::Filled => unless(has_range(setting, form), Code::EmptyRange),
        Rule::Narrow => unless(is_narrow(setting, form), Code::Wide),
        Rule::Limited => match too_many(counts_behind(counts, setting.at(), form)) {
            None => None,
            Some(many) => Some(unnamed(Code::TooMany(many))),
        },
    }
}

/// The refusal at a place for what was found.
pub fn refusal_of(found: Found, place: usize) -> Refusal
    ensures { result ≡ refusal_of found place }
{
    Refusal {
        code: found.code,
        place,
        name: found.name,
    }
}

/// The first statement that breaks a rule.
fn first_broken(rule: Rule, names: &Names, before: &[Counts], stmts: &[Stmt]) -> Option<Refusal>
    requires { AreCounted (map placed stmts.now) before.now }
    ensures { IsRefused (broken rule names.now (map placed stmts.now)) (map placed stmts.now) result }
{
    let mut counts = no_counts();
    for (i, stmt) in stmts.iter().enumerate() {
        let setting = Setting::new(names, before, stmts, counts.procedures, i);
        match fault(rule, &setting, counts, &stmt.form) {
            None => {}
            Some(found) => {
                return Some(refusal_of(found, stmt.place));
            }
        }
        counts = counts_behind(counts, i, &stmt.form);
    }
    None
}

/// The refusal of a text whose names are declared once.
pub(crate) fn first_of_rules(names: &Names, before: &[Counts], stmts: &[Stmt]) -> Option<Refusal>
    requires { AreCounted (map placed stmts.now) before.now }
    ensures { Refuses (passes_with names.now (map placed stmts.now)) (map placed stmts.now) result }
{
    if let Some(refusal) = first_broken(Rule::Known, names, before, stmts) {
        return Some(refusal);
    }
    if let Some(refusal) = first_broken(Rule::Typed, names, before, stmts) {
        return Some(refusal);
    }
    if let Some(refusal) = first_broken(Rule::Allowed, names, before, stmts) {
        return Some(refusal);
    }
    if let Some(refusal) = first_broken(Rule::Filled, names, before, stmts) {
        return Some(refusal);
    }
    if let Some(refusal) = first_broken(Rule::Narrow, names, before, stmts) {
        return Some(refusal);
    }
    first_broken(Rule::Limited, names, before, stmts)
}
