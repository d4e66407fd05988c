//! Names in the order of their bytes, in which those that begin alike stand side by side.
ghost use Rattle.std.specs.Prelude.{◌≡◌, filter, IfOk};
ghost use Rattle.std.specs.Cmp.Lexicographic.{slice_cmp};
ghost use Rattle.std.specs.Ordering.{is_lt, nat_cmp};
ghost use Rattle.call_names.specs.Search.{begins_with};
ghost use Rattle.call_names.specs.Sorted.{names_of, AreInOrder, AreSorted, AreAllSorted};

use crate::outline::{Outline, Variable};
use crate::stem::begins_with;
use il_core::{List, Name, NoMemory};
use std::alloc::Global;

/// The names of variables, in the order of their bytes.
fn sorted_names(alloc: Global, variables: &[Variable]) -> Result<List<Name>, NoMemory>
    ensures { IfOk result (λ l. AreSorted (names_of variables.now) l) }
{
    let mut names = Vec::new(alloc);
    for variable in variables {
        names.push(variable.name)?;
    }
    names.sort()?;
    Ok(List::from_vec(names))
}

/// For each outline the names of its variables, in the order of their bytes.
pub(crate) fn all_sorted(alloc: Global, outlines: &[Outline]) -> Result<Vec<List<Name>>, NoMemory>
    ensures { IfOk result (λ v. AreAllSorted outlines.now v.items) }
{
    let mut all = Vec::new(alloc);
    for outline in outlines {
        let names = sorted_names(alloc, outline.variables.as_slice())?;
        all.push(names)?;
    }
    Ok(all)
}

/// Whether a name stands before these bytes.
fn is_before(name: &Name, stem: &[u8]) -> bool
    ensures { result ≡ is_lt (slice_cmp nat_cmp name.now stem.now) }
{
    name.as_bytes().cmp(stem).is_lt()
}

/// Those of the names that begin with these bytes: they stand side by side, and two binary searches find them.
pub(crate) fn all_beginning_with<'a>(stem: &[u8], names: &'a [Name]) -> &'a [Name]
    requires { AreInOrder names.now }
    ensures { result.now ≡ filter (begins_with stem.now) names.now }
{
    let start = names.partition_point(|name| is_before(name, stem));
    let rest = &names[start..];
    let end = rest.partition_point(|name| begins_with(stem, name));
    &rest[..end]
}
