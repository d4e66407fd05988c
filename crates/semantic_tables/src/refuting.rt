//! Whether the literals of a prefix are plainly refuted. What is found of a prefix is kept in it and handed down: below a
//! refuted prefix nothing is solved any more.
ghost use Rattle.std.specs.Prelude.{All, IfOk, length, map};
ghost use Rattle.sym_simplify.specs.Literal.{literal_form_of};
ghost use Rattle.sym_simplify.specs.Easy.{IsKept};
ghost use Rattle.sym_simplify.specs.Places.{HasLiteralPlacesBelow};
ghost use Rattle.path_inputs.specs.Least.{IsPlainlyRefuted};
ghost use Rattle.semantic_tables.specs.Hazards.{IsLeastOf};
ghost use Rattle.semantic_tables.specs.Walk.{IsSamePrefix, IsRefutedFirst, IsKnown, prefix_forms};

use crate::exploration::Exploration;
use crate::prefix::Prefix;
use il_core::{List, NoMemory};
use path_inputs::{least_input, refuted_stays_refuted};
use sym_simplify::LitForm;

/// The least input of these literals; none where they are plainly refuted.
fn solved(exploration: Exploration<'_>, literals: &[LitForm]) -> Result<Option<List<i64>>, NoMemory>
    requires below { All (λ l. HasLiteralPlacesBelow (length exploration.proc.now.places) (literal_form_of l)) literals.now }
    requires kept { All (λ l. IsKept (literal_form_of l)) literals.now }
    ensures { IfOk result (IsLeastOf exploration.entry.proc.now.places exploration.entry.line (map literal_form_of literals.now)) }
{
    least_input(
        exploration.alloc,
        exploration.proc.places().as_slice(),
        exploration.line,
        literals,
    )
}

/// How many of the first literals are plainly refuted, where all of them are: as few as there are above those, as many as
/// given, that are known not to be.
fn shortest_refuted(
    exploration: Exploration<'_>,
    literals: &[LitForm],
    feasible: usize,
) -> Result<usize, NoMemory>
    requires below { All (λ l. HasLiteralPlacesBelow (length exploration.proc.now.places) (literal_form_of l)) literals.now }
    requires kept { All (λ l. IsKept (literal_form_of l)) literals.now }
    requires refuted { IsPlainlyRefuted exploration.proc.now.places exploration.line (map literal_form_of literals.now) }
    ensures { IfOk result (IsRefutedFirst exploration.entry.proc.now.places exploration.entry.line (map literal_form_of literals.now)) }
{
    let mut shortest = literals.len();
    for count in (0..literals.len()).rev() {
        if count <= feasible {
            return Ok(shortest);
        }
        if solved(exploration, &literals[..count])?.is_some() {
            return Ok(shortest);
        }
        shortest = count;
    }
    Ok(shortest)
}

/// The least input of the literals of a prefix; none where they are plainly refuted. Where a prefix of it is known to be,
/// nothing is solved; and where it is found to be, so is the shortest prefix of it that is.
pub fn least_of(
    exploration: Exploration<'_>,
    prefix: &mut Prefix,
) -> Result<Option<List<i64>>, NoMemory>
    requires below { All (λ l. HasLiteralPlacesBelow (length exploration.proc.now.places) (literal_form_of l)) prefix.old.literals.items }
    requires kept { All (λ l. IsKept (literal_form_of l)) prefix.old.literals.items }
    requires known { IsKnown exploration prefix.old }
    ensures least { IfOk result (IsLeastOf exploration.entry.proc.now.places exploration.entry.line (prefix_forms prefix.old)) }
    ensures known { IfOk result (λ _. IsKnown exploration.entry prefix.new) }
    ensures same { IsSamePrefix prefix.old prefix.new }
{
    refuted_stays_refuted();
    if prefix.refuted.is_some() {
        return Ok(None);
    }
    match solved(exploration, &prefix.literals)? {
        Some(input) => {
            prefix.feasible = prefix.literals.len();
            Ok(Some(input))
        }
        None => {
            let count = shortest_refuted(exploration, &prefix.literals, prefix.feasible)?;
            prefix.refuted = Some(count);
            Ok(None)
        }
    }
}
