//! The lines behind a callee's own, which hand its INOUT and OUT parameters back.
ghost use Rattle.std.specs.Prelude.{◌≡◌, ◌++◌, ◌≤◌, map, IfOk};
ghost use Rattle.std.specs.Option.{option_to_list, option_map};
ghost use Rattle.il_core.specs.Procedure.{instruction_of};
ghost use Rattle.il_called.specs.Called.{passed_of};
ghost use Rattle.il_called.specs.Expansion.{back_to, handed_back};
ghost use Rattle.il_inline.specs.Within.{AreWithin};
ghost use Rattle.il_inline.specs.Held.{place_under};

use crate::entering::read_as;
use crate::renumbering::Renumbering;
use crate::variables::{is_returned, left_behind};
use il_called::Argument;
use il_core::{Line, List, NoMemory, Place};

/// The line that hands a variable of the callee, which has number `number`, back to its argument.
fn back_to(
    under: Renumbering,
    number: usize,
    variable: &Place,
    arguments: &[Argument],
) -> Option<Line>
    requires { AreWithin (back_to (place_under under) number variable.now (map passed_of arguments.now)) }
    ensures { option_to_list (option_map instruction_of result) ≡ back_to (place_under under) number variable.now (map passed_of arguments.now) }
{
    match arguments {
        [Argument::Variable(place), ..] => {
            if is_returned(variable.mode) {
                Some(Line::Assign(under.place(*place), read_as(variable, number)))
            } else {
                None
            }
        }
        _ => None,
    }
}

/// Adds the line of a variable, where it has one.
fn leave_one(
    under: Renumbering,
    number: usize,
    variable: &Place,
    arguments: &[Argument],
    out: &mut List<Line>,
) -> Result<(), NoMemory>
    requires { AreWithin (back_to (place_under under) number variable.now (map passed_of arguments.now)) }
    ensures { IfOk result (λ _. map instruction_of out.new ≡ map instruction_of out.old ++ back_to (place_under under) number variable.now (map passed_of arguments.now)) }
{
    if let Some(line) = back_to(under, number, variable, arguments) {
        out.push(line)?;
    }
    Ok(())
}

/// Adds the lines that hand the callee's parameters back; the first of its variables has number `base`.
pub fn leave(
    under: Renumbering,
    base: usize,
    variables: &[Place],
    arguments: &[Argument],
    out: &mut List<Line>,
) -> Result<(), NoMemory>
    requires within { AreWithin (handed_back (place_under under) base variables.now (map passed_of arguments.now)) }
    requires base { base ≤ 64 }
    ensures { IfOk result (λ _. map instruction_of out.new ≡ map instruction_of out.old ++ handed_back (place_under under) base variables.now (map passed_of arguments.now)) }
{
    let mut rest = arguments;
    for (number, variable) in variables.iter().enumerate() {
        leave_one(under, base + number, variable, rest, out)?;
        rest = left_behind(variable.mode, rest);
    }
    Ok(())
}
