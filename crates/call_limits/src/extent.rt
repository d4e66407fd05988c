ghost use Rattle.std.specs.Prelude.{◌≡◌, ◌+◌, ◌≤◌, ◌<◌, ◌^◌, IfSome};
ghost use Rattle.std.specs.List.{All};
ghost use Rattle.il_core.specs.Statement.{statement_of};
ghost use Rattle.call_limits.specs.Measures.{IsSmall, no_extent, with_call, extent_behind, excess};

use crate::measures::{Measures, called};
use call_rules::is_returned;
use il_core::{Code, Form};
use il_types::{Counts, Found, Setting, is_line, too_many};

/// What counts of the latest procedure, as far as its statements have been gone through.
#[derive(Clone, Copy)]
pub(crate) struct Extent {
    /// The lines, with those that calls count as.
    pub lines: usize,
    /// The INOUT and OUT parameters.
    pub returned: usize,
    /// The places that calls bring.
    pub brought: usize,
}

/// Nothing of a procedure.
pub(crate) fn no_extent() -> Extent
    ensures { result ≡ no_extent }
{
    Extent {
        lines: 0,
        returned: 0,
        brought: 0,
    }
}

/// One call more, of a procedure with these measures.
fn with_call(extent: Extent, called: Option<Measures>) -> Extent
    requires lines { extent.lines ≤ 1000 }
    requires brought { extent.brought ≤ 64 }
    requires small { IfSome called IsSmall }
    ensures extent { result ≡ with_call extent called }
    ensures few { result.brought ≤ 128 }
{
    match called {
        None => Extent {
            lines: extent.lines + 1,
            ..extent
        },
        Some(measures) => Extent {
            lines: extent.lines + measures.width,
            brought: extent.brought + measures.places,
            ..extent
        },
    }
}

/// The extent behind a statement, which is nothing where it begins a procedure.
pub(crate) fn extent_behind(
    setting: &Setting<'_>,
    table: &[Measures],
    extent: Extent,
    form: &Form,
) -> Extent
    requires small { All IsSmall table.now }
    requires lines { extent.lines ≤ 1000 }
    requires returned { extent.returned ≤ 64 }
    requires brought { extent.brought ≤ 64 }
    ensures extent { result ≡ extent_behind table.now setting.now extent (statement_of form.now) }
    ensures few { result.brought ≤ 128 }
{
    match form {
        Form::Proc(_) => no_extent(),
        Form::Variable(mode, _, _) => Extent {
            returned: extent.returned + usize::from(is_returned(*mode)),
            ..extent
        },
        Form::Call(name, _) => with_call(extent, called(table, setting, name)),
        _ => Extent {
            lines: extent.lines + usize::from(is_line(form)),
            ..extent
        },
    }
}

/// What there is too much of in the latest procedure.
pub(crate) fn excess(counts: Counts, extent: Extent) -> Option<Found>
    requires { counts.copies + extent.brought < 2 ^ 64 }
    ensures { result ≡ excess counts extent }
{
    let expanded = Counts {
        lines: extent.lines,
        copies: counts.copies + extent.brought,
        ..counts
    };
    match too_many(expanded) {
        None => None,
        Some(many) => Some(Found {
            code: Code::TooMany(many),
            name: None,
        }),
    }
}
