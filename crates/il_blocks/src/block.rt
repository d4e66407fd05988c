ghost use Rattle.std.specs.Prelude.{◌≡◌, map, reverse, Some, None, IfOk, OnOk, if◌then◌else◌};
ghost use Rattle.il_core.specs.Statement.{statement_of, placed};
ghost use Rattle.il_blocks.specs.Block.{opened_by, closed_by, fits, is_round, leaves, IsUnmatched, IsFirst};
ghost use Rattle.il_blocks.specs.BlockStack.{innermost, left, entered, moved};

use il_core::{Form, NoMemory, Stmt};
use std::alloc::Global;

/// What opened a block.
#[derive(Clone, Copy, PartialEq, Eq)]
pub enum Kind {
    /// PROC.
    Procedure,
    /// IF.
    Then,
    /// ELSE.
    Otherwise,
    /// LOOP.
    Round,
}

/// What closes a block.
#[derive(Clone, Copy, PartialEq, Eq)]
pub enum Closer {
    /// ELSE.
    ByElse,
    /// ENDIF.
    ByEndIf,
    /// ENDLOOP.
    ByEndLoop,
    /// ENDPROC.
    ByEndProc,
}

/// A block that is open.
#[derive(Clone, Copy, PartialEq, Eq)]
pub(crate) struct OpenBlock {
    /// The number of the statement that opened it.
    pub(crate) at: usize,
    /// What opened it.
    kind: Kind,
    /// The number of the innermost LOOP that is this block or around it.
    round: Option<usize>,
}

/// The block that a statement opens.
fn opened_by(form: &Form) -> Option<Kind>
    ensures { result ≡ opened_by (statement_of form.now) }
{
    match form {
        Form::Proc(_) => Some(Kind::Procedure),
        Form::If(_) => Some(Kind::Then),
        Form::Else => Some(Kind::Otherwise),
        Form::Loop => Some(Kind::Round),
        _ => None,
    }
}

/// How a statement closes a block.
pub(crate) fn closed_by(form: &Form) -> Option<Closer>
    ensures { result ≡ closed_by (statement_of form.now) }
{
    match form {
        Form::Else => Some(Closer::ByElse),
        Form::EndIf => Some(Closer::ByEndIf),
        Form::EndLoop => Some(Closer::ByEndLoop),
        Form::EndProc => Some(Closer::ByEndProc),
        _ => None,
    }
}

/// Whether a statement leaves a LOOP.
fn leaves(form: &Form) -> bool
    ensures { result ≡ leaves (statement_of form.now) }
{
    matches!(form, Form::Exit | Form::ExitWhen(_))
}

/// Whether a closer fits what opened the block.
fn fits(closer: Closer, kind: Kind) -> bool
    ensures { result ≡ fits closer kind }
{
    match (closer, kind) {
        (Closer::ByElse, Kind::Then) => true,
        (Closer::ByEndIf, Kind::Then) => true,
        (Closer::ByEndIf, Kind::Otherwise) => true,
        (Closer::ByEndLoop, Kind::Round) => true,
        (Closer::ByEndProc, Kind::Procedure) => true,
        _ => false,
    }
}

fn is_round(kind: Kind) -> bool
    ensures { result ≡ is_round kind }
{
    kind == Kind::Round
}

/// The number of the innermost LOOP that is open.
pub(crate) fn innermost(blocks: &[OpenBlock]) -> Option<usize>
    ensures { result ≡ innermost (reverse blocks.now) }
{
    match blocks.last() {
        Some(top) => top.round,
        None => None,
    }
}

/// Closes the innermost of the open blocks, where there is a closer; whether it fits.
fn close(blocks: &mut Vec<OpenBlock>, closer: Option<Closer>) -> bool
    ensures { left closer (reverse blocks.old.items) ≡ (if result then Some (reverse blocks.new.items) else None) }
{
    let Some(closer) = closer else {
        return true;
    };
    match blocks.pop() {
        Some(top) => fits(closer, top.kind),
        None => false,
    }
}

/// Opens a block inside the others, where the statement numbered `at` opens one.
fn enter(blocks: &mut Vec<OpenBlock>, at: usize, kind: Option<Kind>) -> Result<(), NoMemory>
    ensures { OnOk result (reverse blocks.new.items ≡ entered at kind (reverse blocks.old.items)) }
{
    let Some(kind) = kind else {
        return Ok(());
    };
    let round = if is_round(kind) {
        Some(at)
    } else {
        innermost(blocks.as_slice())
    };
    blocks.push(OpenBlock { at, kind, round })?;
    Ok(())
}

/// Goes past the statement numbered `at`; whether it is matched.
pub(crate) fn pass(blocks: &mut Vec<OpenBlock>, at: usize, form: &Form) -> Result<bool, NoMemory>
    ensures { IfOk result (λ good. moved at (statement_of form.now) (reverse blocks.old.items) ≡ (if good then Some (reverse blocks.new.items) else None)) }
{
    if leaves(form) && innermost(blocks.as_slice()).is_none() {
        return Ok(false);
    }
    if !close(blocks, closed_by(form)) {
        return Ok(false);
    }
    enter(blocks, at, opened_by(form))?;
    Ok(true)
}

/// The number of the first statement that closes no fitting innermost block, or that is an EXIT in no LOOP. It takes time
/// linear in the statements.
pub(crate) fn first_unmatched(alloc: Global, stmts: &[Stmt]) -> Result<Option<usize>, NoMemory>
    ensures { IfOk result (λ first. IsFirst (IsUnmatched (map placed stmts.now)) first) }
{
    let mut blocks = Vec::new(alloc);
    for (i, stmt) in stmts.iter().enumerate() {
        if !pass(&mut blocks, i, &stmt.form)? {
            return Ok(Some(i));
        }
    }
    Ok(None)
}
