ghost use Rattle.std.specs.Prelude.{◌≡◌, ◌+◌, ◌<◌, ◌^◌, List, map, IfOk};
ghost use Rattle.il_core.specs.Statement.{placed, statement_of};
ghost use Rattle.il_core.specs.Tree.{tree_of};
ghost use Rattle.il_core.specs.declared.statement.Link.{Link};
ghost use Rattle.il_types.specs.Counted.{AreCounted};
ghost use Rattle.il_types.specs.Names.{front_of};
ghost use Rattle.il_types.specs.Rules.{IsRefused};
ghost use Rattle.call_rules.specs.Fits.{misfit_at};
ghost use Rattle.call_rules.specs.Parameters.{AreParameters};
ghost use Rattle.call_fits.specs.Longest.{fits, misfit};

use crate::arguments::fit_parameters;
use crate::longest::{are_short, called, end_procedure, latest_behind, nothing_yet};
use call_rules::{Parameters, parameters_named};
use il_core::{Code, Form, Name, NoMemory, RawExpr, Refusal, Stmt};
use il_types::{Counts, Found, Names, Setting, counts_behind, no_counts, refusal_of, unless};
use std::alloc::Global;

/// Whether a call fits that so many calls of its procedure stand before.
fn fits(
    setting: &Setting<'_>,
    parameters: &Parameters,
    table: &[Option<usize>],
    calls: usize,
    name: &Name,
    arguments: &[RawExpr],
) -> bool
    requires parameters { AreParameters setting.now.stmts parameters.now }
    requires few { calls + 1 < 2 ^ 64 }
    ensures { result ≡ fits table.now setting.now calls name.now (map tree_of arguments.now) }
{
    match called(table, setting, name) {
        None => false,
        Some(longest) => {
            fit_parameters(parameters_named(setting, parameters, name), arguments)
                && are_short(calls + 1, longest)
        }
    }
}

/// What a statement breaks, behind so many calls of its procedure.
fn misfit(
    setting: &Setting<'_>,
    parameters: &Parameters,
    table: &[Option<usize>],
    calls: usize,
    form: &Form,
) -> Option<Found>
    requires parameters { AreParameters setting.now.stmts parameters.now }
    requires few { calls + 1 < 2 ^ 64 }
    ensures { result ≡ misfit table.now setting.now calls (statement_of form.now) }
{
    match form {
        Form::Call(name, arguments) => unless(
            fits(
                setting,
                parameters,
                table,
                calls,
                name,
                arguments.as_slice(),
            ),
            Code::BadCall,
        ),
        _ => None,
    }
}

/// The first CALL that does not fit (`Code::BadCall`); `None` exactly where each fits. A CALL fits where it names an earlier procedure, has
/// as many arguments as that has parameters, gives each INOUT and OUT parameter a single name and no two of them the same one, and brings
/// no name of more than 40 bytes. No call is expanded. An error comes where memory runs out. The time is linear in the text but for the
/// look-ups by name and the square of the number of arguments of a CALL.
pub fn first_unfit(
    alloc: Global,
    names: &Names,
    before: &[Counts],
    parameters: &Parameters,
    stmts: &[Stmt],
) -> Result<Option<Refusal>, NoMemory>
    requires counted { AreCounted (map placed stmts.now) before.now }
    requires names { names.now ≡ (front_of (map placed stmts.now)).table }
    requires parameters { AreParameters (map placed stmts.now) parameters.now }
    ensures { IfOk result (λ o. (links : List Link) → IsRefused (misfit_at (map placed stmts.now) links) (map placed stmts.now) o) }
{
    let mut table = Vec::new(alloc);
    let mut counts = no_counts();
    let mut latest = nothing_yet();
    for (i, stmt) in stmts.iter().enumerate() {
        let setting = Setting::new(names, before, stmts, counts.procedures, i);
        match misfit(
            &setting,
            parameters,
            table.as_slice(),
            latest.calls,
            &stmt.form,
        ) {
            None => {}
            Some(found) => {
                return Ok(Some(refusal_of(found, stmt.place)));
            }
        }
        end_procedure(&mut table, counts.procedures, latest, &stmt.form)?;
        latest = latest_behind(&setting, table.as_slice(), latest, &stmt.form);
        counts = counts_behind(counts, i, &stmt.form);
    }
    Ok(None)
}
