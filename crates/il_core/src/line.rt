use crate::{BinOp, Mode, Name};

/// A place of a procedure: a variable, or the OLD copy of an INOUT variable.
#[derive(Clone, Copy, Debug, PartialEq, Eq)]
pub struct Place {
    /// The variable's name.
    pub name: Name,
    /// The variable's mode.
    pub mode: Mode,
    /// Whether this is an OLD copy.
    pub old: bool,
    /// Whether it holds a truth value, 0 or 1.
    pub flag: bool,
    /// Whether an assignment wraps into the range.
    pub wrap: bool,
    /// The least value.
    pub least: i64,
    /// The greatest value.
    pub greatest: i64,
}

/// A checked expression over the places of a procedure.
#[derive(Debug, Drop)]
pub enum Expr {
    /// A number.
    Num(i128),
    /// The value of a place that holds a number.
    Var(usize),
    /// The truth of a place that holds a truth value.
    Flag(usize),
    /// `TRUE` or `FALSE`.
    Truth(bool),
    /// A leading minus.
    Neg(Box<Expr>),
    /// `NOT`.
    Not(Box<Expr>),
    /// An operator with its left and right side.
    Binary(BinOp, Box<Expr>, Box<Expr>),
}

/// A line of a checked procedure. The last number is the line to which it may jump.
#[derive(Debug, Drop)]
pub enum Line {
    /// The precondition, line 0.
    Pre(Expr),
    /// An assignment to a place.
    Assign(usize, Expr),
    /// Goes to the next line where true, else to the target.
    If(Expr, usize),
    /// Goes to its ENDIF.
    Else(usize),
    /// Goes to the next line.
    EndIf,
    /// Goes to the next line.
    Loop,
    /// Goes to its LOOP.
    EndLoop(usize),
    /// Goes to the line behind the loop.
    Exit(usize),
    /// Goes to the line behind the loop where true, else to the next line.
    ExitWhen(Expr, usize),
    /// Goes to the next line.
    Label,
    /// Goes to its label.
    Goto(usize),
    /// Goes to the next line.
    Skip,
    /// An assertion.
    Assert(Expr),
    /// Goes to the last line.
    Return(usize),
    /// The end, with the postcondition.
    EndProc(Expr),
}

/// How a run halts.
#[derive(Clone, Copy, Debug, PartialEq, Eq)]
pub enum Halt {
    /// At the end, inside the postcondition.
    End,
    /// At once, outside the precondition.
    Outside,
    /// At a false assertion on this line.
    FailedAssert(usize),
    /// At the end, outside the postcondition.
    FailedPost,
    /// At a division by zero on this line.
    DivZero(usize),
    /// At an assignment out of range on this line.
    Range(usize),
}

/// Where a step leads.
#[derive(Clone, Copy, Debug, PartialEq, Eq)]
pub enum Next {
    /// To a line.
    At(usize),
    /// To a halt.
    Halted(Halt),
}

/// Where the steps from one cut line to the next lead.
#[derive(Clone, Copy, Debug, PartialEq, Eq)]
pub enum Stop {
    /// To a marked line.
    Head(usize),
    /// To a halt.
    Halted(Halt),
}
