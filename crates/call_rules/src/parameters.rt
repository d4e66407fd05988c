ghost use Rattle.std.specs.Prelude.{◌≡◌, map, slice_get, unwrap_or, [], IfOk};
ghost use Rattle.std.specs.Option.{option_to_list};
ghost use Rattle.il_core.specs.Statement.{placed, statement_of};
ghost use Rattle.il_types.specs.Counted.{AreCounted};
ghost use Rattle.il_types.specs.Names.{front_of};
ghost use Rattle.il_called.specs.Expansion.{is_parameter};
ghost use Rattle.call_rules.specs.Parameters.{declared_parameter, is_procedure, AreParameters};

use il_core::{Form, List, Mode, NoMemory, Stmt};
use il_types::{Counts, Kind, Names, Setting, counts_before, kind_of_use};
use std::alloc::Global;
use std::marker::Model;

/// A parameter of a procedure.
#[derive(Clone, Copy, PartialEq, Eq)]
pub struct Parameter {
    /// Its mode, which is not LOCAL.
    pub mode: Mode,
    /// The kind of its type; `None` where that is no type.
    pub kind: Option<Kind>,
}

/// Whether a variable of a mode is a parameter.
fn is_parameter(mode: Mode) -> bool
    ensures { result ≡ is_parameter mode }
{
    match mode {
        Mode::Input => true,
        Mode::InOut => true,
        Mode::Output => true,
        Mode::Local => false,
    }
}

/// The parameter that a statement declares.
fn declared_parameter(setting: &Setting<'_>, form: &Form) -> Option<Parameter>
    ensures { option_to_list result ≡ declared_parameter setting.now (statement_of form.now) }
{
    match form {
        Form::Variable(mode, _, used) => if is_parameter(*mode) {
            Some(Parameter {
                mode: *mode,
                kind: kind_of_use(setting, used),
            })
        } else {
            None
        },
        _ => None,
    }
}

/// Whether a statement begins a procedure.
fn is_procedure(form: &Form) -> bool
    ensures { result ≡ is_procedure (statement_of form.now) }
{
    matches!(form, Form::Proc(_))
}

/// The parameters of each procedure of a text, in the order of their declarations. The list of number k is that of the k-th procedure,
/// counted from 1.
#[derive(Drop)]
pub struct Parameters {
    lists: Vec<List<Parameter>>,
}

impl Model for Parameters {
    ghost use Rattle.std.specs.Prelude.{List};
    ghost use Rattle.call_rules.specs.declared.parameters.Parameter.{Parameter};

    ghost Value = { List (List Parameter) };

    ghost view = { λ p. p.lists.items };
}

impl Parameters {
    /// The parameters of the procedures of a text with its declarations and the counts in front of its statements. An error comes
    /// where memory runs out. The time is linear in the text but for a look-up by name for each parameter.
    pub fn new(
        alloc: Global,
        names: &Names,
        counts: &[Counts],
        stmts: &[Stmt],
    ) -> Result<Parameters, NoMemory>
        requires counted { AreCounted (map placed stmts.now) counts.now }
        requires names { names.now ≡ (front_of (map placed stmts.now)).table }
        ensures { IfOk result (λ p. AreParameters (map placed stmts.now) p) }
    {
        let mut lists = Vec::new(alloc);
        let mut latest = List::new(alloc);
        for (i, stmt) in stmts.iter().enumerate() {
            let owner = counts_before(counts, stmts, i).procedures;
            let setting = Setting::new(names, counts, stmts, owner, i);
            if let Some(parameter) = declared_parameter(&setting, &stmt.form) {
                latest.push(parameter)?;
            }
            if is_procedure(&stmt.form) {
                lists.push(latest)?;
                latest = List::new(alloc);
            }
        }
        lists.push(latest)?;
        Ok(Parameters { lists })
    }

    /// The parameters of the procedure of a number, counted from 1; none where there is no such procedure. Constant time.
    pub fn of(&self, number: usize) -> &[Parameter]
        ensures { result.now ≡ unwrap_or (slice_get self.now number) [] }
    {
        match self.lists.get(number) {
            None => &[],
            Some(list) => list.as_slice(),
        }
    }
}
