ghost use Rattle.std.specs.Prelude.{◌≡◌, ◌+◌, ◌≤◌, ◌<◌, Some, None, MatchResult, IfOk};
ghost use Rattle.il_core.specs.Tree.{tree_of};
ghost use Rattle.il_syntax.specs.Expression.{kinds, own_level, left_level, ExpressionIs};
ghost use Rattle.il_syntax.specs.ExpressionReading.{Gives, view, leaf, negated, opposed, joined, closed, former_at, operator_of, NextIs, next_operator, first_operand, further, climb, whole_tree, ReadsAs};

use il_core::{BinOp, Keyword, NoMemory, RawExpr, Relation, Symbol, Token, TokenKind};
use std::alloc::Global;

/// Why tokens gave no expression.
#[derive(Clone, Copy, PartialEq, Eq)]
pub enum ExpressionEnd {
    /// They are no expression.
    NoForm,
    /// Memory ran out.
    NoMemory,
}

/// The greatest depth of an expression.
const DEPTH_LIMIT: usize = 200;

/// The level of operands that need no parentheses anywhere.
const PRIMARY: usize = 6;

/// The level of sums, and of a leading minus.
const SUM: usize = 4;

/// The level of products.
const PRODUCT: usize = 5;

/// The level of NOT.
const NEGATION: usize = 2;

impl From<NoMemory> for ExpressionEnd {
    ghost use Rattle.std.specs.Prelude.{◌≡◌};
    ghost use Rattle.il_syntax.specs.declared.expression.ExpressionEnd.TheVariants as end;

    ghost from_gives = { λ _ e. e ≡ end.NoMemory };

    fn from(_error: NoMemory) -> ExpressionEnd {
        ExpressionEnd::NoMemory
    }
}

/// An expression that was read, with the level of its outermost operator and its depth, in which parentheses count.
#[derive(Drop)]
struct Seen {
    tree: RawExpr,
    level: usize,
    depth: usize,
}

/// The level of an operator: the higher, the closer it binds.
fn own_level(op: BinOp) -> usize
    ensures value { result ≡ own_level op }
    ensures bound { result ≤ 5 }
{
    match op {
        BinOp::Or => 0,
        BinOp::And => 1,
        BinOp::Compare(_) => 3,
        BinOp::Add | BinOp::Sub => SUM,
        BinOp::Mul | BinOp::Div | BinOp::Mod => PRODUCT,
    }
}

/// The least level of an operator's left side: its own, but comparisons do not chain.
fn left_level(op: BinOp) -> usize
    ensures { result ≡ left_level op }
{
    match op {
        BinOp::Compare(_) => SUM,
        other => own_level(other),
    }
}

/// The operator with two sides that a token is.
fn operator_of(kind: &TokenKind) -> Option<BinOp>
    ensures { result ≡ operator_of kind.now }
{
    match kind {
        TokenKind::Key(Keyword::KwOr) => Some(BinOp::Or),
        TokenKind::Key(Keyword::KwAnd) => Some(BinOp::And),
        TokenKind::Key(Keyword::KwDiv) => Some(BinOp::Div),
        TokenKind::Key(Keyword::KwMod) => Some(BinOp::Mod),
        TokenKind::Symbol(Symbol::Plus) => Some(BinOp::Add),
        TokenKind::Symbol(Symbol::Minus) => Some(BinOp::Sub),
        TokenKind::Symbol(Symbol::Times) => Some(BinOp::Mul),
        TokenKind::Symbol(Symbol::Equal) => Some(BinOp::Compare(Relation::Eq)),
        TokenKind::Symbol(Symbol::Unequal) => Some(BinOp::Compare(Relation::Ne)),
        TokenKind::Symbol(Symbol::Less) => Some(BinOp::Compare(Relation::Lt)),
        TokenKind::Symbol(Symbol::AtMost) => Some(BinOp::Compare(Relation::Le)),
        TokenKind::Symbol(Symbol::Greater) => Some(BinOp::Compare(Relation::Gt)),
        TokenKind::Symbol(Symbol::AtLeast) => Some(BinOp::Compare(Relation::Ge)),
        _ => None,
    }
}

/// The operator at the front, where it is of the least level at least and may stand behind a left side of this level,
/// and the tokens behind it.
fn next_operator(least: usize, level: usize, tokens: &[Token]) -> Option<(BinOp, &[Token])>
    ensures { NextIs result (next_operator least level (kinds tokens.now)) }
{
    let [first, rest @ ..] = tokens else {
        return None;
    };
    let op = operator_of(&first.kind)?;
    if least <= own_level(op) && left_level(op) <= level {
        Some((op, rest))
    } else {
        None
    }
}

/// An operand that needs no parentheses anywhere.
fn leaf(tree: RawExpr) -> Seen
    ensures { view result ≡ leaf (tree_of tree) }
{
    Seen {
        tree,
        level: PRIMARY,
        depth: 1,
    }
}

/// What is enclosed in parentheses, at the closing one.
fn closed(inner: Seen, tokens: &[Token]) -> Result<(Seen, &[Token]), ExpressionEnd>
    requires { inner.depth ≤ 200 }
    ensures { Gives result (closed (view inner) (kinds tokens.now)) }
{
    match tokens {
        [first, rest @ ..] => match first.kind {
            TokenKind::Symbol(Symbol::RightParen) => {
                let Seen { tree, depth, .. } = inner;
                let seen = Seen {
                    tree,
                    level: PRIMARY,
                    depth: depth + 1,
                };
                Ok((seen, rest))
            }
            _ => Err(ExpressionEnd::NoForm),
        },
        [] => Err(ExpressionEnd::NoForm),
    }
}

/// The name behind OLD.
fn former(tokens: &[Token]) -> Result<(Seen, &[Token]), ExpressionEnd>
    ensures { Gives result (former_at (kinds tokens.now)) }
{
    match tokens {
        [first, rest @ ..] => match first.kind {
            TokenKind::Ident(name) => Ok((leaf(RawExpr::Old(name)), rest)),
            _ => Err(ExpressionEnd::NoForm),
        },
        [] => Err(ExpressionEnd::NoForm),
    }
}

/// A leading minus before what was read.
fn negated(alloc: Global, inner: Seen) -> Result<Seen, NoMemory>
    requires { inner.depth ≤ 200 }
    ensures { IfOk result (λ seen. view seen ≡ negated (view inner)) }
{
    let Seen { tree, depth, .. } = inner;
    Ok(Seen {
        tree: RawExpr::Neg(Box::new(alloc, tree)?),
        level: SUM,
        depth: depth + 1,
    })
}

/// NOT before what was read.
fn opposed(alloc: Global, inner: Seen) -> Result<Seen, NoMemory>
    requires { inner.depth ≤ 200 }
    ensures { IfOk result (λ seen. view seen ≡ opposed (view inner)) }
{
    let Seen { tree, depth, .. } = inner;
    Ok(Seen {
        tree: RawExpr::Not(Box::new(alloc, tree)?),
        level: NEGATION,
        depth: depth + 1,
    })
}

/// An operator between what was read on its two sides.
fn joined(alloc: Global, op: BinOp, left: Seen, right: Seen) -> Result<Seen, NoMemory>
    requires left { left.depth ≤ 200 }
    requires right { right.depth ≤ 200 }
    ensures { IfOk result (λ seen. view seen ≡ joined op (view left) (view right)) }
{
    let level = own_level(op);
    let depth = left.depth.max(right.depth) + 1;
    let left = Box::new(alloc, left.tree)?;
    let right = Box::new(alloc, right.tree)?;
    Ok(Seen {
        tree: RawExpr::Binary(op, left, right),
        level,
        depth,
    })
}

/// The first operand of an expression whose operators are of the level `least` at least, of a depth of `room` inside it.
#[cycle(climb)]
fn first_operand(
    alloc: Global,
    room: usize,
    least: usize,
    tokens: &[Token],
) -> Result<(Seen, &[Token]), ExpressionEnd>
    requires { room < 200 }
    ensures value { Gives result (first_operand (climb room) least (kinds tokens.now)) }
    ensures shallow { IfOk result (λ found. found.0.depth ≤ room + 1) }
{
    let [first, rest @ ..] = tokens else {
        return Err(ExpressionEnd::NoForm);
    };
    match first.kind {
        TokenKind::Number(n) => Ok((leaf(RawExpr::Num(n)), rest)),
        TokenKind::Ident(name) => Ok((leaf(RawExpr::Ident(name)), rest)),
        TokenKind::Key(Keyword::KwOld) => former(rest),
        TokenKind::Key(Keyword::KwTrue) => Ok((leaf(RawExpr::Truth(true)), rest)),
        TokenKind::Key(Keyword::KwFalse) => Ok((leaf(RawExpr::Truth(false)), rest)),
        TokenKind::Key(Keyword::KwNot) if least <= NEGATION => {
            match climb(alloc, room, NEGATION, rest) {
                Err(end) => Err(end),
                Ok((inner, behind)) => Ok((opposed(alloc, inner)?, behind)),
            }
        }
        TokenKind::Symbol(Symbol::LeftParen) => match climb(alloc, room, 0, rest) {
            Err(end) => Err(end),
            Ok((inner, behind)) => closed(inner, behind),
        },
        TokenKind::Symbol(Symbol::Minus) if least <= SUM => {
            match climb(alloc, room, PRODUCT, rest) {
                Err(end) => Err(end),
                Ok((inner, behind)) => Ok((negated(alloc, inner)?, behind)),
            }
        }
        _ => Err(ExpressionEnd::NoForm),
    }
}

/// What follows the first operand: operators of the level `least` at least, each with its right side, as long as they come.
#[cycle(climb)]
fn further(
    alloc: Global,
    room: usize,
    least: usize,
    seen: Seen,
    tokens: &[Token],
) -> Result<(Seen, &[Token]), ExpressionEnd>
    requires room { room < 200 }
    requires shallow { seen.depth ≤ room + 1 }
    ensures value { Gives result (further (climb room) (room + 1) room least (view seen) (kinds tokens.now)) }
    ensures shallow { IfOk result (λ found. found.0.depth ≤ room + 1) }
{
    let mut seen = seen;
    let mut rest = tokens;
    'sides: while let Some((op, behind)) = next_operator(least, seen.level, rest) {
        if seen.depth > room {
            return Err(ExpressionEnd::NoForm);
        }
        match climb(alloc, room, own_level(op) + 1, behind) {
            Err(end) => return Err(end),
            Ok((right, after)) => {
                seen = joined(alloc, op, seen, right)?;
                rest = after;
            }
        }
    }
    Ok((seen, rest))
}

/// The expression at the front of the tokens, as long as it goes, whose operators outside parentheses are of the level
/// `least` at least, and whose depth is at most `room`; and the tokens behind it.
#[cycle(climb)]
fn climb(
    alloc: Global,
    room: usize,
    least: usize,
    tokens: &[Token],
) -> Result<(Seen, &[Token]), ExpressionEnd>
    requires { room ≤ 200 }
    ensures value { Gives result (climb room least (kinds tokens.now)) }
    ensures shallow { IfOk result (λ found. found.0.depth ≤ room) }
{
    if room == 0 {
        return Err(ExpressionEnd::NoForm);
    }
    match first_operand(alloc, room - 1, least, tokens) {
        Err(end) => Err(end),
        Ok((seen, rest)) => further(alloc, room - 1, least, seen, rest),
    }
}

/// What was read, where no token is left behind it.
fn whole(seen: Seen, rest: &[Token]) -> Result<RawExpr, ExpressionEnd>
    ensures { ReadsAs result (whole_tree (view seen) (kinds rest.now)) }
{
    if rest.is_empty() {
        Ok(seen.tree)
    } else {
        Err(ExpressionEnd::NoForm)
    }
}

/// The expression that all of the tokens spell. `NoForm` comes exactly where they spell none of depth at most 200.
/// It takes time linear in the tokens, and a stack of at most 200 levels of its calls.
pub(crate) fn expression(alloc: Global, tokens: &[Token]) -> Result<RawExpr, ExpressionEnd>
    ensures { ExpressionIs (kinds tokens.now) result }
{
    match climb(alloc, DEPTH_LIMIT, 0, tokens) {
        Err(end) => Err(end),
        Ok((seen, rest)) => whole(seen, rest),
    }
}
