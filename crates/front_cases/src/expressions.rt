//! The expressions of a text, as preconditions.
use crate::texts::{nested, statements_of};
use il_core::{BinOp, Form, RawExpr, Relation};
use std::alloc::{AllocError, Global};
use std::test::Fail;

fn symbol_text(op: BinOp) -> &'static str {
    match op {
        BinOp::Add => "+",
        BinOp::Sub => "-",
        BinOp::Mul => "*",
        BinOp::Div => "DIV",
        BinOp::Mod => "MOD",
        BinOp::Compare(Relation::Eq) => "=",
        BinOp::Compare(Relation::Ne) => "/=",
        BinOp::Compare(Relation::Lt) => "<",
        BinOp::Compare(Relation::Le) => "<=",
        BinOp::Compare(Relation::Gt) => ">",
        BinOp::Compare(Relation::Ge) => ">=",
        BinOp::And => "AND",
        BinOp::Or => "OR",
    }
}

/// The tree as text, with brackets around each operator and its sides.
fn rendered(out: &mut Vec<u8>, expr: &RawExpr) -> Result<(), AllocError> {
    match expr {
        RawExpr::Num(_) => out.extend_from_slice(b"7")?,
        RawExpr::Ident(name) => out.extend_from_slice(name.as_bytes())?,
        RawExpr::Old(name) => {
            out.extend_from_slice(b"OLD ")?;
            out.extend_from_slice(name.as_bytes())?;
        }
        RawExpr::Truth(true) => out.extend_from_slice(b"TRUE")?,
        RawExpr::Truth(false) => out.extend_from_slice(b"FALSE")?,
        RawExpr::Neg(inner) => {
            out.extend_from_slice(b"[- ")?;
            rendered(out, inner)?;
            out.extend_from_slice(b"]")?;
        }
        RawExpr::Not(inner) => {
            out.extend_from_slice(b"[NOT ")?;
            rendered(out, inner)?;
            out.extend_from_slice(b"]")?;
        }
        RawExpr::Binary(op, left, right) => {
            out.extend_from_slice(b"[")?;
            rendered(out, left)?;
            out.extend_from_slice(b" ")?;
            out.extend_from_slice(symbol_text(*op).as_bytes())?;
            out.extend_from_slice(b" ")?;
            rendered(out, right)?;
            out.extend_from_slice(b"]")?;
        }
    }
    Ok(())
}

/// What is answered to a text whose precondition, its third statement, has no form.
const NONE: &str = "Syntax 19";

/// What the precondition of words is read as, or the refusal of its text.
fn reading(alloc: Global, words: &str) -> Result<Vec<u8>, Fail> {
    let text = format!(in alloc;
        "TITLE t ; PROC p ; PRE {words} ; POST TRUE ; ENDPROC ; FINISH ;"
    )?;
    let mut out = Vec::new(alloc);
    match statements_of(alloc, text.as_bytes())? {
        Ok(stmts) => match stmts.get(2).map(|stmt| &stmt.form) {
            Some(Form::Pre(tree)) => rendered(&mut out, tree)?,
            _ => return Err(Fail::from("no precondition")),
        },
        Err(refusal) => {
            let (code, place) = (refusal.code, refusal.place);
            out.extend_from_slice(format!(in alloc; "{code:?} {place}")?.as_bytes())?;
        }
    }
    Ok(out)
}

fn is_as(alloc: Global, words: &str, want: &str) -> Result<bool, Fail> {
    Ok(reading(alloc, words)?.as_slice() == want.as_bytes())
}

#[test]
fn reads_by_level(rt: HostRuntime) -> Result<(), Fail> {
    let cases = [
        ("a - b - c", "[[a - b] - c]"),
        ("a DIV b * c MOD 7", "[[[a DIV b] * c] MOD 7]"),
        ("a + b * c", "[a + [b * c]]"),
        ("a * ( b + c )", "[a * [b + c]]"),
        ("- a * b + c", "[[- [a * b]] + c]"),
        ("a + - b", NONE),
        ("a * - b", NONE),
        ("- - a", NONE),
        ("- ( - a )", "[- [- a]]"),
        ("NOT a < b", "[NOT [a < b]]"),
        ("NOT NOT a AND b", "[[NOT [NOT a]] AND b]"),
        ("a < NOT b", NONE),
        ("a OR b AND c OR TRUE", "[[a OR [b AND c]] OR TRUE]"),
        ("- a <= - b", "[[- a] <= [- b]]"),
        ("a < b < c", NONE),
        ("( a = b ) /= FALSE", "[[a = b] /= FALSE]"),
        ("OLD a >= 7", "[OLD a >= 7]"),
        ("OLD 7", NONE),
        ("( a", NONE),
        ("a )", NONE),
        ("a a", NONE),
        ("a >", NONE),
        ("", NONE),
    ];
    for (text, want) in cases {
        assert!(rt; is_as(rt.alloc(), text, want)?, "at {text}");
    }
    Ok(())
}

#[test]
fn depth_counts_parentheses(rt: HostRuntime) -> Result<(), Fail> {
    for (depth, want) in [(1, "a"), (200, "a"), (201, NONE)] {
        let text = nested(rt.alloc(), depth)?;
        assert!(rt; is_as(rt.alloc(), text.as_str(), want)?, "at {depth}");
    }
    Ok(())
}
