//! The ways through lines, and steps along their decisions.
use acceptance::accept;
use case_values::is_in_range;
use il_core::{CheckedProc, Halt, Next, Place, Relation};
use std::alloc::{AllocError, Global};
use std::test::Fail;
use sym_terms::{Literal, Term};
use test_graph::{Taken, TestGraph, TestNode, lower, step_along};

/// Each line whose ways are tried. The places are x, a, b, q, f, g, w, z and e, and then the OLD copies.
const LINES: &[u8] =
    b"TITLE t;TYPE colour = ( red, green, blue );PROC p;INOUT x : 0 .. 9;IN a : 0 .. 9;IN b : 0 .. 9;INOUT q : 0 .. 9;INOUT f : BOOL;IN g : BOOL;INOUT w : WRAP 0 .. 9;INOUT z : WRAP -128 .. 127;INOUT e : colour;PRE a < 5;POST x = a;x := x + 1;q := a DIV b;IF a = 1 AND 10 DIV b > 2;ENDIF;f := NOT NOT g;f := g;f := NOT TRUE;IF FALSE AND f;ENDIF;q := a MOD 0;w := w + 1;z := z * 2;e := blue;ENDPROC;FINISH;";

fn term_text(alloc: Global, term: &Term) -> Result<String, AllocError> {
    match term {
        Term::Num(number) => format!(in alloc; "{number}"),
        Term::Var(place) => format!(in alloc; "v{place}"),
        Term::Add(a, b) => pair_text(alloc, term_text(alloc, a)?, '+', term_text(alloc, b)?),
        Term::Mul(a, b) => pair_text(alloc, term_text(alloc, a)?, '*', term_text(alloc, b)?),
        Term::Div(a, b) => pair_text(alloc, term_text(alloc, a)?, '/', term_text(alloc, b)?),
        Term::Mod(a, b) => pair_text(alloc, term_text(alloc, a)?, '%', term_text(alloc, b)?),
    }
}

fn pair_text(alloc: Global, a: String, op: char, b: String) -> Result<String, AllocError> {
    format!(in alloc; "({a}{op}{b})")
}

/// The sign of a relation where the decision is true, and of the opposite one where it is not.
fn sign(relation: Relation, met: bool) -> &'static str {
    match (relation, met) {
        (Relation::Eq, true) | (Relation::Ne, false) => "=",
        (Relation::Ne, true) | (Relation::Eq, false) => "/=",
        (Relation::Lt, true) | (Relation::Ge, false) => "<",
        (Relation::Le, true) | (Relation::Gt, false) => "<=",
        (Relation::Gt, true) | (Relation::Le, false) => ">",
        (Relation::Ge, true) | (Relation::Lt, false) => ">=",
    }
}

fn literal_text(alloc: Global, literal: &Literal, met: bool) -> Result<String, AllocError> {
    let left = term_text(alloc, &literal.left)?;
    let right = term_text(alloc, &literal.right)?;
    let sign = sign(literal.relation, met);
    format!(in alloc; "{left} {sign} {right}; ")
}

/// The way of a line with these decisions, T or F each: its literals, what it assigns, and where it leads.
fn way_text(alloc: Global, graph: &TestGraph, line: usize, path: &str) -> Result<String, Fail> {
    let nodes = graph.nodes.as_slice();
    let entry = *graph.entries.get(line).ok_or("no line")?;
    let mut id = match nodes.get(entry) {
        Some(TestNode::AtLine(at, first)) if *at == line => *first,
        _ => return Err(Fail::from("no entry")),
    };
    let mut text = String::new(alloc);
    for decision in path.bytes() {
        match nodes.get(id) {
            Some(TestNode::Test(literal, met, unmet)) => {
                let is_met = decision == b'T';
                text.push_str(literal_text(alloc, literal, is_met)?.as_str())?;
                id = if is_met { *met } else { *unmet };
            }
            _ => return Err(Fail::from("no decision")),
        }
    }
    if let Some(TestNode::Assign(place, term, next)) = nodes.get(id) {
        let term = term_text(alloc, term)?;
        let change = format!(in alloc; "v{place} := {term}; ")?;
        text.push_str(change.as_str())?;
        id = *next;
    }
    let end = match nodes.get(id) {
        Some(TestNode::AtLine(at, _)) => format!(in alloc; "{at}")?,
        Some(TestNode::Stop(halt)) => format!(in alloc; "{halt:?}")?,
        _ => return Err(Fail::from("no end")),
    };
    text.push_str(end.as_str())?;
    Ok(text)
}

#[test]
fn lines_have_their_ways(rt: HostRuntime) -> Result<(), Fail> {
    let checked = accept(rt.alloc(), LINES).or(Err("refused"))?.text;
    let proc = checked.procs().get(0).ok_or("no procedure")?;
    let graph = lower(rt.alloc(), proc)?;
    let cases: [(usize, &[(&str, &str)]); 15] = [
        (0, &[("T", "v1 < 5; 1"), ("F", "v1 >= 5; Outside")]),
        (
            1,
            &[
                ("T", "(v0+1) <= 9; v0 := (v0+1); 2"),
                ("F", "(v0+1) > 9; Range(1)"),
            ],
        ),
        (
            2,
            &[
                ("T", "v2 /= 0; v3 := (v1/v2); 3"),
                ("F", "v2 = 0; DivZero(2)"),
            ],
        ),
        (
            3,
            &[
                ("TTT", "v1 = 1; v2 /= 0; (10/v2) > 2; 4"),
                ("TTF", "v1 = 1; v2 /= 0; (10/v2) <= 2; 4"),
                ("TF", "v1 = 1; v2 = 0; DivZero(3)"),
                ("F", "v1 /= 1; 4"),
            ],
        ),
        (4, &[("", "5")]),
        (
            5,
            &[("T", "v5 >= 1; v4 := 1; 6"), ("F", "v5 < 1; v4 := 0; 6")],
        ),
        (6, &[("", "v4 := v5; 7")]),
        (7, &[("", "v4 := 0; 8")]),
        (8, &[("", "9")]),
        (9, &[("", "10")]),
        (
            10,
            &[
                ("T", "0 /= 0; v3 := (v1%0); 11"),
                ("F", "0 = 0; DivZero(10)"),
            ],
        ),
        (11, &[("", "v6 := (0+(((v6+1)+0)%10)); 12")]),
        (12, &[("", "v7 := (-128+(((v7*2)+128)%256)); 13")]),
        (13, &[("", "v8 := 2; 14")]),
        (14, &[("T", "v0 = v1; End"), ("F", "v0 /= v1; FailedPost")]),
    ];
    for (line, ways) in cases.iter() {
        // Of each decision both sides have a way, so the shares of the ways add up to one.
        let mut shares = 0u32;
        for (path, wanted) in ways.iter() {
            let text = way_text(rt.alloc(), &graph, *line, path)?;
            assert_eq!(rt; text.as_str(), *wanted);
            let share = match path.len() {
                0 => 8,
                1 => 4,
                2 => 2,
                _ => 1,
            };
            shares = shares.saturating_add(share);
        }
        assert_eq!(rt; shares, 8u32);
    }
    Ok(())
}

/// The step of a line along a path, where the line is there and the values are in range.
fn tried(
    proc: &CheckedProc,
    line: usize,
    vals: &mut [i64],
    path: &[bool],
) -> Result<Option<Taken>, Fail> {
    if line < proc.lines().len() && is_in_range(proc.places().as_slice(), vals) {
        Ok(step_along(proc, line, vals, path))
    } else {
        Err(Fail::from("out of range"))
    }
}

fn to_line(line: usize, used: usize) -> Option<Taken> {
    Some(Taken {
        next: Next::At(line),
        used,
    })
}

fn to_halt(halt: Halt, used: usize) -> Option<Taken> {
    Some(Taken {
        next: Next::Halted(halt),
        used,
    })
}

#[test]
fn steps_follow_decisions(rt: HostRuntime) -> Result<(), Fail> {
    let checked = accept(rt.alloc(), LINES).or(Err("refused"))?.text;
    let proc = checked.procs().get(0).ok_or("no procedure")?;
    // x, a, b, q, f, g, w, z and e, then the OLD copies of x, q, f, w, z and e
    let start = [9i64, 1, 0, 3, 0, 1, 9, 100, 0, 9, 3, 0, 9, 100, 0];
    // a line, a path, what is taken, and the place that changes with its new value
    let cases: [(usize, &[bool], Option<Taken>, (usize, i64)); 11] = [
        (0, &[true], to_line(1, 1), (0, 9)),
        (1, &[false], to_halt(Halt::Range(1), 1), (0, 9)),
        (1, &[true], None, (0, 9)),
        (1, &[], None, (0, 9)),
        (2, &[false, true], to_halt(Halt::DivZero(2), 1), (3, 3)),
        (3, &[true, false], to_halt(Halt::DivZero(3), 2), (0, 9)),
        (5, &[true], to_line(6, 1), (4, 1)),
        (6, &[], to_line(7, 0), (4, 1)),
        (10, &[false], to_halt(Halt::DivZero(10), 1), (3, 3)),
        (11, &[true], to_line(12, 0), (6, 0)),
        (12, &[], to_line(13, 0), (7, -56)),
    ];
    for (line, path, wanted, (place, value)) in cases.iter() {
        let mut vals = start;
        let found = tried(proc, *line, &mut vals, path)?;
        assert_eq!(rt; found, *wanted);
        assert_eq!(rt; vals.get(*place).copied(), Some(*value));
    }
    Ok(())
}

/// A condition of the given depth through which more ways lead than two to the power of the depth.
fn many_ways(alloc: Global, depth: usize) -> Result<String, AllocError> {
    let mut text = format!(in alloc; "a = 1")?;
    for _level in 0..depth {
        text = format!(in alloc; "(({text}) OR f) AND g")?;
    }
    Ok(text)
}

/// How many nodes a procedure with one test has.
fn nodes_with(alloc: Global, condition: &str) -> Result<usize, Fail> {
    let text = format!(in alloc;
        "TITLE t;PROC p;IN a : 0 .. 9;IN f : BOOL;IN g : BOOL;PRE TRUE;POST TRUE;IF {condition};ENDIF;ENDPROC;FINISH;"
    )?;
    let bytes = text.as_bytes();
    if bytes.len() > 1_048_576 {
        return Err(Fail::from("too long"));
    }
    let checked = accept(alloc, bytes).or(Err("refused"))?.text;
    let proc = checked.procs().get(0).ok_or("no procedure")?;
    let graph = lower(alloc, proc)?;
    Ok(graph.nodes.len())
}

#[test]
fn many_ways_have_few_nodes(rt: HostRuntime) -> Result<(), Fail> {
    // four lines, six halts, and a node for each comparison and each truth value
    for depth in [0usize, 1, 2, 20] {
        let condition = many_ways(rt.alloc(), depth)?;
        let nodes = nodes_with(rt.alloc(), condition.as_str())?;
        assert_eq!(rt; nodes, 11 + 2 * depth);
    }
    Ok(())
}
