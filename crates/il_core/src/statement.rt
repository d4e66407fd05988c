use crate::{BinOp, List, Name};

/// How a procedure may use a variable.
#[derive(Clone, Copy, Debug, PartialEq, Eq)]
pub enum Mode {
    /// `IN`: read alone.
    Input,
    /// `INOUT`: read, written and handed back; OLD names its initial value.
    InOut,
    /// `OUT`: handed back.
    Output,
    /// `LOCAL`: of the procedure alone.
    Local,
}

/// An expression as it is written, without its parentheses.
#[derive(Drop)]
pub enum RawExpr {
    /// A number.
    Num(u64),
    /// A name: a constant, an enumeration value or a variable.
    Ident(Name),
    /// `OLD` and a name: the initial value of an INOUT variable.
    Old(Name),
    /// `TRUE` or `FALSE`.
    Truth(bool),
    /// A leading minus.
    Neg(Box<RawExpr>),
    /// `NOT`.
    Not(Box<RawExpr>),
    /// An operator with its left and right side.
    Binary(BinOp, Box<RawExpr>, Box<RawExpr>),
}

/// An end of a range.
#[derive(Clone, Copy, PartialEq, Eq)]
pub enum Bound {
    /// A number, with its sign.
    Number(i64),
    /// The name of a constant.
    Constant(Name),
}

/// The type in the declaration of a variable.
#[derive(Clone, Copy, PartialEq, Eq)]
pub enum TypeUse {
    /// `BOOL`.
    Bool,
    /// The name of a type.
    Named(Name),
    /// A range, least value first.
    Range(Bound, Bound),
    /// A wrapping range, least value first.
    Wrap(Bound, Bound),
}

/// A statement and the place of its first byte in the text, counted from 0.
#[derive(Drop)]
pub struct Stmt {
    /// The place of the statement's first byte.
    pub place: usize,
    /// What it says.
    pub form: Form,
}

/// The forms of a statement.
#[derive(Drop)]
pub enum Form {
    /// `TITLE name`
    Title(Name),
    /// `CONST name = value`
    Const(Name, i64),
    /// `TYPE name = bound .. bound`
    RangeType(Name, Bound, Bound),
    /// `TYPE name = WRAP bound .. bound`
    WrapType(Name, Bound, Bound),
    /// `TYPE name = ( value, value )`
    EnumType(Name, List<Name>),
    /// `PROC name`
    Proc(Name),
    /// `IN`, `INOUT`, `OUT` or `LOCAL`, then `name : type`
    Variable(Mode, Name, TypeUse),
    /// `PRE expression`
    Pre(RawExpr),
    /// `POST expression`
    Post(RawExpr),
    /// `name := expression`
    Assign(Name, RawExpr),
    /// `IF expression`
    If(RawExpr),
    /// `ELSE`
    Else,
    /// `ENDIF`
    EndIf,
    /// `LOOP`
    Loop,
    /// `ENDLOOP`
    EndLoop,
    /// `EXIT`
    Exit,
    /// `EXIT WHEN expression`
    ExitWhen(RawExpr),
    /// `LABEL name`
    Label(Name),
    /// `GOTO name`
    Goto(Name),
    /// `CALL name`, or `CALL name ( expression, expression )` with at least one argument
    Call(Name, List<RawExpr>),
    /// `SKIP`
    Skip,
    /// `ASSERT expression`
    Assert(RawExpr),
    /// `RETURN`
    Return,
    /// `ENDPROC`
    EndProc,
    /// `FINISH`
    Finish,
}

/// The line of a statement within its procedure, counted from 0 at PRE.
#[derive(Clone, Copy, PartialEq, Eq)]
pub enum Link {
    /// The statement is no line.
    NoLine,
    /// A line that names no other line.
    Plain(usize),
    /// A line and the line to which it may jump.
    Jump(usize, usize),
}
