use crate::Name;

/// The keywords of the text language.
#[derive(Clone, Copy, PartialEq, Eq)]
pub enum Keyword {
    KwTitle,
    KwConst,
    KwType,
    KwProc,
    KwIn,
    KwInout,
    KwOut,
    KwLocal,
    KwBool,
    KwPre,
    KwPost,
    KwIf,
    KwElse,
    KwEndif,
    KwLoop,
    KwEndloop,
    KwExit,
    KwWhen,
    KwLabel,
    KwGoto,
    KwSkip,
    KwAssert,
    KwReturn,
    KwEndproc,
    KwFinish,
    KwOld,
    KwTrue,
    KwFalse,
    KwNot,
    KwAnd,
    KwOr,
    KwDiv,
    KwMod,
    KwCall,
    KwWrap,
}

/// The symbols of the text language.
#[derive(Clone, Copy, PartialEq, Eq)]
pub enum Symbol {
    Becomes,
    Colon,
    Semicolon,
    Comma,
    LeftParen,
    RightParen,
    Dots,
    Plus,
    Minus,
    Times,
    Equal,
    Unequal,
    AtMost,
    Less,
    AtLeast,
    Greater,
}

/// What a token is.
#[derive(Clone, Copy, PartialEq, Eq)]
pub enum TokenKind {
    /// A name that is spelt as a keyword.
    Key(Keyword),
    /// Any other name.
    Ident(Name),
    /// A number, by its value.
    Number(u64),
    /// A symbol.
    Symbol(Symbol),
}

/// A token with its span in the text: the bytes from `first` up to but without `after`, counted from 0.
#[derive(Clone, Copy, PartialEq, Eq)]
pub struct Token {
    /// What the token is.
    pub kind: TokenKind,
    /// The place of its first byte.
    pub first: usize,
    /// The place just behind its last byte.
    pub after: usize,
}
