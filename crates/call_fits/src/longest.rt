//! The longest name of a place in the expansion of each procedure.
ghost use Rattle.std.specs.Prelude.{◌≡◌, ◌+◌, ◌≤◌, ◌<◌, ◌^◌, IfOk};
ghost use Rattle.il_core.specs.Statement.{statement_of};
ghost use Rattle.call_fits.specs.Longest.{front_length, with_front, is_short_behind, longer, brought, nothing_yet, with_call, called, latest_behind, table_behind};

use call_rules::procedure_named;
use il_core::{Form, NAME_LIMIT, Name, NoMemory};
use il_types::Setting;
use itoa::Buffer;

/// What is kept of the latest procedure, as far as its statements have been gone through.
#[derive(Clone, Copy)]
pub(crate) struct Latest {
    /// The number of its calls.
    pub calls: usize,
    /// The length of the longest name of a place in its expansion; any number above 40 stands for a longer one. `None` where there is
    /// no place yet.
    pub longest: Option<usize>,
}

/// Nothing of a procedure.
pub(crate) fn nothing_yet() -> Latest
    ensures { result ≡ nothing_yet }
{
    Latest {
        calls: 0,
        longest: None,
    }
}

/// How many bytes a call of this number, counted from 1, puts in front of a name.
fn front_length(call: usize) -> usize
    ensures value { result ≡ front_length call }
    ensures small { result ≤ 42 }
{
    let mut digits = Buffer::new();
    digits.format(call).len() + 2
}

/// The length of a name with bytes in front of it; a name that is too long keeps its length.
fn with_front(front: usize, longest: usize) -> usize
    requires { front ≤ 42 }
    ensures { result ≡ with_front front longest }
{
    if longest <= NAME_LIMIT {
        front + longest
    } else {
        longest
    }
}

/// The greater of two lengths, where there are any.
fn longer(first: Option<usize>, second: Option<usize>) -> Option<usize>
    ensures { result ≡ longer first second }
{
    match (first, second) {
        (None, second) => second,
        (Some(first), None) => Some(first),
        (Some(first), Some(second)) => Some(if first <= second { second } else { first }),
    }
}

/// The longest name that a call brings of a procedure with this longest name.
fn brought(front: usize, longest: Option<usize>) -> Option<usize>
    requires { front ≤ 42 }
    ensures { result ≡ brought front longest }
{
    match longest {
        None => None,
        Some(longest) => Some(with_front(front, longest)),
    }
}

/// Whether a call of this number, counted from 1, brings no name that is too long.
pub(crate) fn are_short(call: usize, longest: Option<usize>) -> bool
    ensures { result ≡ is_short_behind (front_length call) longest }
{
    match longest {
        None => true,
        Some(longest) => longest <= NAME_LIMIT && front_length(call) + longest <= NAME_LIMIT,
    }
}

/// The longest name of the earlier procedure that a name stands for; `None` where it stands for none. One or two look-ups.
pub(crate) fn called(
    table: &[Option<usize>],
    setting: &Setting<'_>,
    name: &Name,
) -> Option<Option<usize>>
    ensures { result ≡ called table.now setting.now name.now }
{
    match procedure_named(setting, name) {
        None => None,
        Some(number) => table.get(number.saturating_sub(1)).copied(),
    }
}

/// One call more, of a procedure with this longest name.
fn with_call(latest: Latest, called: Option<Option<usize>>) -> Latest
    requires { latest.calls + 1 < 2 ^ 64 }
    ensures latest { result ≡ with_call latest called }
    ensures one { result.calls ≤ latest.calls + 1 }
{
    let calls = latest.calls + 1;
    match called {
        None => Latest { calls, ..latest },
        Some(longest) => Latest {
            calls,
            longest: longer(latest.longest, brought(front_length(calls), longest)),
        },
    }
}

/// What is kept behind a statement, which is nothing where it begins a procedure.
pub(crate) fn latest_behind(
    setting: &Setting<'_>,
    table: &[Option<usize>],
    latest: Latest,
    form: &Form,
) -> Latest
    requires { latest.calls + 1 < 2 ^ 64 }
    ensures latest { result ≡ latest_behind table.now setting.now latest (statement_of form.now) }
    ensures one { result.calls ≤ latest.calls + 1 }
{
    match form {
        Form::Proc(_) => nothing_yet(),
        Form::Variable(_, name, _) => Latest {
            longest: longer(latest.longest, Some(name.as_bytes().len())),
            ..latest
        },
        Form::Call(name, _) => with_call(latest, called(table, setting, name)),
        _ => latest,
    }
}

/// Puts the longest name of the latest procedure behind those of the others, where a statement begins the next one.
pub(crate) fn end_procedure(
    table: &mut Vec<Option<usize>>,
    procedures: usize,
    latest: Latest,
    form: &Form,
) -> Result<(), NoMemory>
    ensures { IfOk result (λ _. table.new.items ≡ table_behind table.old.items procedures latest (statement_of form.now)) }
{
    match form {
        Form::Proc(_) => {
            if procedures != 0 {
                table.push(latest.longest)?;
            }
            Ok(())
        }
        _ => Ok(()),
    }
}
