ghost use Rattle.std.specs.Prelude.{◌≡◌, ◌<◌, ◌+◌, ◌^◌, map};
ghost use Rattle.il_core.specs.Statement.{statement_of, placed};
ghost use Rattle.il_types.specs.Counted.{AreCounted};
ghost use Rattle.il_types.specs.CountsBelow.{IsBehind};
ghost use Rattle.il_types.specs.Names.{front_of};
ghost use Rattle.il_types.specs.Rules.{IsRefused, Refuses};
ghost use Rattle.call_rules.specs.Calls.{fault_in, fault_at};
ghost use Rattle.call_rules.specs.Parameters.{AreParameters};
ghost use Rattle.call_rules.specs.Rules.{passes_with_names};

use crate::calls::call_fault;
use crate::parameters::Parameters;
use il_core::{Form, Refusal, Stmt};
use il_types::{Counts, Found, Names, Rule, Setting, counts_behind, fault, no_counts, refusal_of};

/// What a statement breaks of a rule.
fn fault_in(
    rule: Rule,
    setting: &Setting<'_>,
    parameters: &Parameters,
    counts: Counts,
    form: &Form,
) -> Option<Found>
    requires parameters { AreParameters setting.now.stmts parameters.now }
    requires behind { IsBehind counts setting.now.at }
    requires room { setting.now.at + 1 < 2 ^ 64 }
    ensures { result ≡ fault_in rule setting.now counts (statement_of form.now) }
{
    match form {
        Form::Call(name, arguments) => call_fault(
            rule,
            setting,
            parameters,
            name,
            arguments.as_slice(),
        ),
        _ => fault(rule, setting, counts, form),
    }
}

/// The first statement that breaks a rule.
fn first_broken(
    rule: Rule,
    names: &Names,
    before: &[Counts],
    parameters: &Parameters,
    stmts: &[Stmt],
) -> Option<Refusal>
    requires counted { AreCounted (map placed stmts.now) before.now }
    requires names { names.now ≡ (front_of (map placed stmts.now)).table }
    requires parameters { AreParameters (map placed stmts.now) parameters.now }
    ensures { IsRefused (fault_at rule (map placed stmts.now)) (map placed stmts.now) result }
{
    let mut counts = no_counts();
    for (i, stmt) in stmts.iter().enumerate() {
        let setting = Setting::new(names, before, stmts, counts.procedures, i);
        match fault_in(rule, &setting, parameters, counts, &stmt.form) {
            None => {}
            Some(found) => {
                return Some(refusal_of(found, stmt.place));
            }
        }
        counts = counts_behind(counts, i, &stmt.form);
    }
    None
}

/// The refusal of a text with calls by the rules that look at a statement with the declarations in force there, or `None` exactly where
/// it keeps them all. Each rule is checked over the whole text before the next one: each name that is used is declared (`Code::Unknown`,
/// with the name), each name and expression has the type that is needed (`Typing`), the modes allow each use (`Access`), each range holds
/// a value (`EmptyRange`), and no part of an expression has static bounds outside 2^126 on either side of 0 (`Wide`). At a call, its
/// arguments are assigned to the parameters, and the INOUT and OUT parameters back to the variables that they are given. The place is
/// that of the first statement that breaks the rule. The time is linear in the text but for the look-ups by name.
pub fn first_of_call_rules(
    names: &Names,
    before: &[Counts],
    parameters: &Parameters,
    stmts: &[Stmt],
) -> Option<Refusal>
    requires counted { AreCounted (map placed stmts.now) before.now }
    requires names { names.now ≡ (front_of (map placed stmts.now)).table }
    requires parameters { AreParameters (map placed stmts.now) parameters.now }
    ensures { Refuses (passes_with_names (map placed stmts.now)) (map placed stmts.now) result }
{
    if let Some(refusal) = first_broken(Rule::Known, names, before, parameters, stmts) {
        return Some(refusal);
    }
    if let Some(refusal) = first_broken(Rule::Typed, names, before, parameters, stmts) {
        return Some(refusal);
    }
    if let Some(refusal) = first_broken(Rule::Allowed, names, before, parameters, stmts) {
        return Some(refusal);
    }
    if let Some(refusal) = first_broken(Rule::Filled, names, before, parameters, stmts) {
        return Some(refusal);
    }
    first_broken(Rule::Narrow, names, before, parameters, stmts)
}
