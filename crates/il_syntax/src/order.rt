ghost use Rattle.std.specs.Prelude.{◌≡◌, ◌↔◌, map, IsTrue, MatchOption};
ghost use Rattle.il_core.specs.Statement.{statement_of, placed};
ghost use Rattle.il_syntax.specs.Order.{part_of, next, IsInOrder, BreaksAt};

use il_core::{Form, Stmt};

/// The part of a text that a statement is.
#[derive(Clone, Copy, PartialEq, Eq)]
pub enum Part {
    /// TITLE.
    Title,
    /// CONST and TYPE.
    Declaration,
    /// PROC.
    Opening,
    /// The declaration of a variable.
    Variable,
    /// PRE.
    Precondition,
    /// POST.
    Postcondition,
    /// A statement of a body.
    Body,
    /// ENDPROC.
    Closing,
    /// FINISH.
    Finish,
}

/// What a text has come to.
#[derive(Clone, Copy, PartialEq, Eq)]
pub enum Stage {
    /// Its beginning: TITLE comes next.
    Start,
    /// Its constants and types, up to the first PROC.
    Declarations,
    /// The variables of a procedure, up to its PRE.
    Variables,
    /// POST comes next.
    Postcondition,
    /// The body of a procedure, up to its ENDPROC.
    Body,
    /// The end of a procedure: PROC or FINISH comes next.
    Procedures,
    /// Its end: nothing may follow.
    Done,
}

/// The part of a text that a form is.
fn part_of(form: &Form) -> Part
    ensures { result ≡ part_of (statement_of form.now) }
{
    match form {
        Form::Title(_) => Part::Title,
        Form::Const(_, _) => Part::Declaration,
        Form::RangeType(_, _, _) => Part::Declaration,
        Form::WrapType(_, _, _) => Part::Declaration,
        Form::EnumType(_, _) => Part::Declaration,
        Form::Proc(_) => Part::Opening,
        Form::Variable(_, _, _) => Part::Variable,
        Form::Pre(_) => Part::Precondition,
        Form::Post(_) => Part::Postcondition,
        Form::EndProc => Part::Closing,
        Form::Finish => Part::Finish,
        _ => Part::Body,
    }
}

/// The stage behind a part that may stand at a stage; `None` where it may not.
fn next(stage: Stage, part: Part) -> Option<Stage>
    ensures { result ≡ next stage part }
{
    match (stage, part) {
        (Stage::Start, Part::Title) => Some(Stage::Declarations),
        (Stage::Declarations, Part::Declaration) => Some(Stage::Declarations),
        (Stage::Declarations, Part::Opening) => Some(Stage::Variables),
        (Stage::Variables, Part::Variable) => Some(Stage::Variables),
        (Stage::Variables, Part::Precondition) => Some(Stage::Postcondition),
        (Stage::Postcondition, Part::Postcondition) => Some(Stage::Body),
        (Stage::Body, Part::Body) => Some(Stage::Body),
        (Stage::Body, Part::Closing) => Some(Stage::Procedures),
        (Stage::Procedures, Part::Opening) => Some(Stage::Variables),
        (Stage::Procedures, Part::Finish) => Some(Stage::Done),
        _ => None,
    }
}

fn is_done(stage: Stage) -> bool
    ensures { IsTrue result ↔ (stage ≡ Stage.Done) }
{
    stage == Stage::Done
}

/// The first place where the order of a text breaks: the first statement that can't stand where it stands, or the
/// length of the text where the statements end before FINISH. `None` comes exactly where they stand in order.
pub(crate) fn order_break(text_len: usize, stmts: &[Stmt]) -> Option<usize>
    ensures { MatchOption result (IsInOrder (map placed stmts.now)) (λ place. BreaksAt text_len (map placed stmts.now) place) }
{
    let mut stage = Stage::Start;
    for stmt in stmts {
        match next(stage, part_of(&stmt.form)) {
            Some(after) => stage = after,
            None => return Some(stmt.place),
        }
    }
    if is_done(stage) { None } else { Some(text_len) }
}
