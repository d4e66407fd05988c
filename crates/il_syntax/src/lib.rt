//! From tokens to statements. Each statement of the text language is spelt by tokens, and so is each expression in it;
//! this layer answers which one, where the tokens spell one, or where the first fault is. Expressions are read by climbing
//! the levels of their operators (precedence climbing, Martin Richards 1979), in time linear in the tokens.
#![tactic(auto)]

mod expression;
mod form;
mod form_call;
mod form_declaration;
mod form_enumeration;
mod form_range;
mod form_token;
mod order;
mod parsing;
mod statement;

pub use expression::ExpressionEnd;
pub use order::{Part, Stage};
pub use parsing::{one_parse, parse};
