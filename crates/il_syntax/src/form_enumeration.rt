ghost use Rattle.std.specs.Prelude.{◌≡◌, IfOk};
ghost use Rattle.il_syntax.specs.Expression.{kinds};
ghost use Rattle.il_syntax.specs.FormReading.{names_of};

use crate::form_token::{is_comma, is_end, is_right, name_in};
use il_core::{List, Name, NoMemory, Token};
use std::alloc::Global;

/// The names that stand with commas between them in all of the tokens, up to a parenthesis.
pub(crate) fn names_of(alloc: Global, tokens: &[Token]) -> Result<Option<List<Name>>, NoMemory>
    ensures { IfOk result (λ names. names ≡ names_of (kinds tokens.now)) }
{
    let mut names = List::new(alloc);
    let mut rest = tokens;
    while let Some((word, behind)) = rest.split_first() {
        let Some((mark, after)) = behind.split_first() else {
            return Ok(None);
        };
        let Some(name) = name_in(&word.kind) else {
            return Ok(None);
        };
        names.push(name)?;
        if !is_comma(&mark.kind) {
            if is_right(&mark.kind) && is_end(after) {
                return Ok(Some(names));
            }
            return Ok(None);
        }
        rest = after;
    }
    Ok(None)
}
