//! The data that all layers of the suite speak of: names, lists, tokens, statements, checked procedures,
//! certificates and refusals, and the definitions of evaluation, of a step of the line machine and of its runs.
#![tactic(auto)]

mod certificate;
mod checked;
mod line;
mod list;
mod memory;
mod name;
mod operator;
mod refusal;
mod statement;
mod token;

pub use certificate::{Cert, Item, NamedCert, Share};
pub use checked::{CheckedProc, CheckedText};
pub use line::{Expr, Halt, Line, Next, Place, Stop};
pub use list::List;
pub use memory::NoMemory;
pub use name::{NAME_LIMIT, Name};
pub use operator::{BinOp, Relation};
pub use refusal::{Code, Many, Refusal, TextEnd};
pub use statement::{Bound, Form, Link, Mode, RawExpr, Stmt, TypeUse};
pub use token::{Keyword, Symbol, Token, TokenKind};
