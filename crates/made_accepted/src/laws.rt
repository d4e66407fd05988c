ghost use Rattle.made_accepted.specs.Laws.{AreAccepted, AreNotRefused, HaveMadeStatements, HaveNoFault};

use acceptance::one_answer;
use call_free::answers_alike;

/// The made text of a number from 1 to 200 has tokens within the limits of numbers, and they are its statements, in order.
/// This law costs nothing.
pub fn made_statements()
    ensures { HaveMadeStatements }
{}

/// The statements of the made text of a number from 1 to 200 have their blocks matched and no label at fault, they
/// break no rule of names, types, modes, ranges, bounds and limits, and none is a CALL. This law costs nothing.
pub fn made_statements_have_no_fault()
    ensures { HaveNoFault }
{}

/// The made text of a number from 1 to 200 is accepted, with an expansion, and it is not refused. This law costs
/// nothing.
pub fn made_texts_are_accepted()
    ensures accepted { AreAccepted }
    ensures unrefused { AreNotRefused }
{
    one_answer();
    answers_alike();
}
