//! The statements of a text.
use crate::texts::{nested, statements_of};
use il_core::{Bound, Form, Mode, TypeUse};
use std::alloc::{AllocError, Global};
use std::test::Fail;

fn mode_text(mode: Mode) -> &'static str {
    match mode {
        Mode::Input => "in",
        Mode::InOut => "inout",
        Mode::Output => "out",
        Mode::Local => "local",
    }
}

fn put_bound(out: &mut String, bound: &Bound) -> Result<(), AllocError> {
    match bound {
        Bound::Number(i64::MIN) => out.push_str(" least"),
        Bound::Number(0) => out.push_str(" 0"),
        Bound::Number(i64::MAX) => out.push_str(" greatest"),
        Bound::Number(_) => out.push_str(" other"),
        Bound::Constant(_) => out.push_str(" name"),
    }
}

fn put_type(out: &mut String, declared: &TypeUse) -> Result<(), AllocError> {
    match declared {
        TypeUse::Bool => out.push_str(" bool"),
        TypeUse::Named(_) => out.push_str(" name"),
        TypeUse::Range(least, greatest) => {
            put_bound(out, least)?;
            put_bound(out, greatest)
        }
        TypeUse::Wrap(least, greatest) => {
            out.push_str(" wrap")?;
            put_bound(out, least)?;
            put_bound(out, greatest)
        }
    }
}

/// What a form is, in a few words.
fn put_form(out: &mut String, form: &Form) -> Result<(), AllocError> {
    match form {
        Form::Title(_) => out.push_str("title"),
        Form::Const(_, value) => {
            out.push_str("const")?;
            put_bound(out, &Bound::Number(*value))
        }
        Form::RangeType(_, least, greatest) => {
            out.push_str("type")?;
            put_bound(out, least)?;
            put_bound(out, greatest)
        }
        Form::WrapType(_, least, greatest) => {
            out.push_str("type wrap")?;
            put_bound(out, least)?;
            put_bound(out, greatest)
        }
        Form::EnumType(_, values) => {
            out.push_str("type of")?;
            for _ in values.as_slice() {
                out.push_str(" name")?;
            }
            Ok(())
        }
        Form::Proc(_) => out.push_str("proc"),
        Form::Variable(mode, _, declared) => {
            out.push_str(mode_text(*mode))?;
            put_type(out, declared)
        }
        Form::Pre(_) => out.push_str("pre"),
        Form::Post(_) => out.push_str("post"),
        Form::Assign(_, _) => out.push_str("assign"),
        Form::If(_) => out.push_str("if"),
        Form::Else => out.push_str("else"),
        Form::EndIf => out.push_str("endif"),
        Form::Loop => out.push_str("loop"),
        Form::EndLoop => out.push_str("endloop"),
        Form::Exit => out.push_str("exit"),
        Form::ExitWhen(_) => out.push_str("exit when"),
        Form::Label(_) => out.push_str("label"),
        Form::Goto(_) => out.push_str("goto"),
        Form::Call(_, arguments) => {
            out.push_str("call")?;
            for _ in arguments.as_slice() {
                out.push_str(" argument")?;
            }
            Ok(())
        }
        Form::Skip => out.push_str("skip"),
        Form::Assert(_) => out.push_str("assert"),
        Form::Return => out.push_str("return"),
        Form::EndProc => out.push_str("endproc"),
        Form::Finish => out.push_str("finish"),
    }
}

/// The statements of a text, or its refusal.
fn answer(alloc: Global, text: &str) -> Result<String, Fail> {
    let mut out = String::new(alloc);
    match statements_of(alloc, text.as_bytes())? {
        Ok(stmts) => {
            for stmt in stmts.as_slice() {
                put_form(&mut out, &stmt.form)?;
                out.push_str(";")?;
            }
        }
        Err(refusal) => {
            let (code, place) = (refusal.code, refusal.place);
            return Ok(format!(in alloc; "{code:?} {place}")?);
        }
    }
    Ok(out)
}

fn is_as(alloc: Global, text: &str, want: &str) -> Result<bool, Fail> {
    Ok(answer(alloc, text)?.as_str() == want)
}

#[test]
fn answers_are_those_of_the_grammar(rt: HostRuntime) -> Result<(), Fail> {
    let cases = [
        // Each form once.
        (
            "TITLE t ; CONST a = - 9223372036854775808 ; CONST b = 9223372036854775807 ; TYPE c = - 0 .. b ; TYPE d = WRAP a .. 0 ; TYPE e = ( f ) ; TYPE g = ( h , i , j ) ; PROC p ; IN k : BOOL ; INOUT l : c ; OUT m : 0 .. b ; LOCAL n : WRAP 0 .. 1 ; PRE k ; POST NOT k ; ENDPROC ; FINISH ;",
            "title;const least;const greatest;type 0 name;type wrap name 0;type of name;type of name name name;proc;in bool;inout name;out 0 name;local wrap 0 other;pre;post;endproc;finish;",
        ),
        (
            "TITLE t ; PROC p ; PRE TRUE ; POST TRUE ; a := - b ; IF a < b ; ELSE ; ENDIF ; LOOP ; EXIT ; EXIT WHEN a = b ; ENDLOOP ; LABEL l ; GOTO l ; SKIP ; ASSERT OLD a < b ; RETURN ; ENDPROC ; PROC q ; PRE TRUE ; POST TRUE ; ENDPROC ; FINISH ;",
            "title;proc;pre;post;assign;if;else;endif;loop;exit;exit when;endloop;label;goto;skip;assert;return;endproc;proc;pre;post;endproc;finish;",
        ),
        // Statements without a form.
        (";", "Syntax 0"),
        ("TITLE t ; TITLE ; FINISH ;", "Syntax 10"),
        ("TITLE t ; CONST a = b ;", "Syntax 10"),
        ("TITLE t ; CONST a = - - 1 ;", "Syntax 10"),
        ("TITLE t ; TYPE a = ( ) ;", "Syntax 10"),
        ("TITLE t ; TYPE a = ( b , ) ;", "Syntax 10"),
        ("TITLE t ; TYPE a = BOOL ;", "Syntax 10"),
        ("TITLE t ; TYPE a = - b .. 1 ;", "Syntax 10"),
        ("TITLE t ; IN a : WRAP BOOL ;", "Syntax 10"),
        ("TITLE t ; IN a : WRAP b ;", "Syntax 10"),
        ("TITLE t ; IN a : 0 .. 1 .. 2 ;", "Syntax 10"),
        ("TITLE t ; EXIT WHEN ;", "Syntax 10"),
        ("TITLE t ; ELSE a ;", "Syntax 10"),
        ("TITLE t ; a = b ;", "Syntax 10"),
        // Tokens behind the last semicolon.
        ("FINISH", "Syntax 0"),
        ("TITLE t ; SKIP ; FINISH ; a b", "Syntax 26"),
        // A form is looked for over the whole text first.
        ("SKIP ; TITLE t ; a b ;", "Syntax 17"),
        // Statements out of order.
        ("", "Order 0"),
        ("TITLE t ;", "Order 9"),
        ("PROC p ; TITLE t ;", "Order 0"),
        ("TITLE t ; TITLE t ;", "Order 10"),
        ("TITLE t ; FINISH ;", "Order 10"),
        ("TITLE t ; CALL q ;", "Order 10"),
        ("TITLE t ; PROC p ; CALL q ( a ) ;", "Order 19"),
        ("TITLE t ; PROC p ; CONST a = 0 ;", "Order 19"),
        ("TITLE t ; PROC p ; PRE TRUE ; SKIP ;", "Order 30"),
        ("TITLE t ; PROC p ; POST TRUE ; PRE TRUE ;", "Order 19"),
        (
            "TITLE t ; PROC p ; PRE TRUE ; POST TRUE ; PROC q ;",
            "Order 42",
        ),
        (
            "TITLE t ; PROC p ; PRE TRUE ; POST TRUE ; ENDPROC ; CONST a = 0 ;",
            "Order 52",
        ),
        (
            "TITLE t ; PROC p ; PRE TRUE ; POST TRUE ; ENDPROC ; FINISH ; FINISH ;",
            "Order 61",
        ),
    ];
    for (text, want) in cases {
        assert!(rt; is_as(rt.alloc(), text, want)?, "at {text}");
    }
    Ok(())
}

/// What the one statement of a body is read as, or the refusal of its text.
fn reading_of_body(alloc: Global, words: &str) -> Result<String, Fail> {
    let text = format!(in alloc;
        "TITLE t ; PROC p ; PRE TRUE ; POST TRUE ; {words} ; ENDPROC ; FINISH ;"
    )?;
    let mut out = String::new(alloc);
    match statements_of(alloc, text.as_bytes())? {
        Ok(stmts) => match stmts.get(4) {
            Some(stmt) => put_form(&mut out, &stmt.form)?,
            None => return Err(Fail::from("no body")),
        },
        Err(refusal) => {
            let (code, place) = (refusal.code, refusal.place);
            return Ok(format!(in alloc; "{code:?} {place}")?);
        }
    }
    Ok(out)
}

/// What is answered to a text whose body, which begins at byte 42, has no form.
const NO_FORM: &str = "Syntax 42";

fn is_body_as(alloc: Global, words: &str, want: &str) -> Result<bool, Fail> {
    Ok(reading_of_body(alloc, words)?.as_str() == want)
}

#[test]
fn a_call_has_two_forms(rt: HostRuntime) -> Result<(), Fail> {
    let cases = [
        ("CALL q", "call"),
        ("CALL q ( a )", "call argument"),
        ("CALL q(a,b+1)", "call argument argument"),
        (
            "CALL q ( ( a ) , NOT b AND TRUE , - 7 DIV 2 , OLD c )",
            "call argument argument argument argument",
        ),
        // What a call calls is a name.
        ("CALL", NO_FORM),
        ("CALL 3", NO_FORM),
        ("CALL ( a )", NO_FORM),
        ("CALL SKIP", NO_FORM),
        ("CALL := 1", NO_FORM),
        ("CALL q r", NO_FORM),
        ("q ( a )", NO_FORM),
        // No pair of parentheses is empty, and each comma stands between two arguments.
        ("CALL q ( )", NO_FORM),
        ("CALL q ( a , )", NO_FORM),
        ("CALL q ( , a )", NO_FORM),
        ("CALL q ( a , , b )", NO_FORM),
        ("CALL q ( a b )", NO_FORM),
        ("CALL q ( ( a , b ) )", NO_FORM),
        ("CALL q a", NO_FORM),
        ("CALL q a , b", NO_FORM),
        // The parentheses are a pair, and nothing stands behind them.
        ("CALL q (", NO_FORM),
        ("CALL q ( a", NO_FORM),
        ("CALL q a )", NO_FORM),
        ("CALL q ( a ) )", NO_FORM),
        ("CALL q ( a ) b", NO_FORM),
        ("CALL q ( a ) ( b )", NO_FORM),
        // Each argument is an expression.
        ("CALL q ( a < b < c )", NO_FORM),
        ("CALL q ( a , b + )", NO_FORM),
        ("CALL q ( a := b )", NO_FORM),
    ];
    for (text, want) in cases {
        assert!(rt; is_body_as(rt.alloc(), text, want)?, "at {text}");
    }
    Ok(())
}

#[test]
fn each_argument_has_a_depth_of_its_own(rt: HostRuntime) -> Result<(), Fail> {
    let alloc = rt.alloc();
    let (deepest, deeper) = (nested(alloc, 200)?, nested(alloc, 201)?);
    let both = format!(in alloc; "CALL q ( {deepest} , {deepest} )")?;
    let first = format!(in alloc; "CALL q ( {deeper} , a )")?;
    let last = format!(in alloc; "CALL q ( a , {deeper} )")?;
    assert!(rt; is_body_as(alloc, both.as_str(), "call argument argument")?);
    assert!(rt; is_body_as(alloc, first.as_str(), NO_FORM)?);
    assert!(rt; is_body_as(alloc, last.as_str(), NO_FORM)?);
    Ok(())
}
