//! Texts of normal terms and of forms of literals over the places a, b and OLD a.
use form_text::{is_place, put_literal, put_normal};
use il_core::{List, Mode, Name, NoMemory, Place, Relation};
use il_edge::SureSink;
use std::alloc::Global;
use std::test::Fail;
use sym_simplify::{Atom, Kept, LitForm, Normal, Part};

fn place(name: &[u8], old: bool) -> Result<Place, Fail> {
    Ok(Place {
        name: Name::new(name).ok_or("no name")?,
        mode: Mode::InOut,
        old,
        flag: false,
        wrap: false,
        least: 0,
        greatest: 9,
    })
}

fn places() -> Result<[Place; 3], Fail> {
    Ok([place(b"a", false)?, place(b"b", false)?, place(b"a", true)?])
}

fn number(alloc: Global, constant: i128) -> Normal {
    Normal {
        constant,
        parts: List::new(alloc),
    }
}

/// An atom as often as a coefficient says, and a constant.
fn multiple(
    alloc: Global,
    coefficient: i128,
    atom: Atom,
    constant: i128,
) -> Result<Normal, NoMemory> {
    Ok(Normal {
        constant,
        parts: List::from_vec(vec![in alloc; Part { coefficient, atom }]?),
    })
}

fn just(alloc: Global, atom: Atom) -> Result<Normal, NoMemory> {
    multiple(alloc, 1, atom, 0)
}

fn times(alloc: Global, left: Normal, right: Normal) -> Result<Atom, NoMemory> {
    Ok(Atom::Mul(Box::new(alloc, left)?, Box::new(alloc, right)?))
}

fn over(alloc: Global, left: Normal, right: Normal) -> Result<Atom, NoMemory> {
    Ok(Atom::Div(Box::new(alloc, left)?, Box::new(alloc, right)?))
}

fn rest(alloc: Global, left: Normal, right: Normal) -> Result<Atom, NoMemory> {
    Ok(Atom::Mod(Box::new(alloc, left)?, Box::new(alloc, right)?))
}

/// `-a + b - 3 * OLD a - 5`
fn mixed(alloc: Global) -> Result<Normal, NoMemory> {
    let parts = vec![in alloc;
        Part {
            coefficient: -1,
            atom: Atom::Var(0)
        },
        Part {
            coefficient: 1,
            atom: Atom::Var(1)
        },
        Part {
            coefficient: -3,
            atom: Atom::Var(2)
        },
    ]?;
    Ok(Normal {
        constant: -5,
        parts: List::from_vec(parts),
    })
}

/// `(a DIV b) * b`
fn uncancelled(alloc: Global) -> Result<Normal, NoMemory> {
    let quotient = over(
        alloc,
        just(alloc, Atom::Var(0))?,
        just(alloc, Atom::Var(1))?,
    )?;
    let product = times(alloc, just(alloc, Atom::Var(1))?, just(alloc, quotient)?)?;
    just(alloc, product)
}

/// `a DIV 3 MOD 2`
fn nested(alloc: Global) -> Result<Normal, NoMemory> {
    let quotient = over(alloc, just(alloc, Atom::Var(0))?, number(alloc, 3))?;
    let remainder = rest(alloc, just(alloc, quotient)?, number(alloc, 2))?;
    just(alloc, remainder)
}

/// `a * (a * a)`, with a negative coefficient and a side that is a negative constant
fn cubed(alloc: Global) -> Result<Normal, NoMemory> {
    let square = times(
        alloc,
        just(alloc, Atom::Var(0))?,
        just(alloc, Atom::Var(0))?,
    )?;
    let cube = times(alloc, just(alloc, Atom::Var(0))?, just(alloc, square)?)?;
    multiple(alloc, -2, cube, 0)
}

#[test]
fn writes_normal_terms(rt: HostRuntime) -> Result<(), Fail> {
    let alloc = rt.alloc();
    let names = places()?;
    let cases: [(Normal, &[u8]); 7] = [
        // no part
        (number(alloc, 0), b"0"),
        (number(alloc, -7), b"-7"),
        // one place
        (just(alloc, Atom::Var(2))?, b"OLD a"),
        // signs in front and behind
        (mixed(alloc)?, b"-a + b - 3*OLD a - 5"),
        // a quotient as a side stands in parentheses of its own and of the side
        (uncancelled(alloc)?, b"b*((a DIV b))"),
        (nested(alloc)?, b"(((a DIV 3)) MOD 2)"),
        // products are not flattened
        (cubed(alloc)?, b"-2*a*(a*a)"),
    ];
    for (normal, text) in &cases {
        let mut sink = SureSink::new(alloc, 100)?;
        put_normal(&names, normal, &mut sink)?;
        assert_eq!(rt; sink.held(), *text);
    }
    Ok(())
}

/// A term compared to a number.
fn compared(sum: Normal, relation: Relation, bound: i128) -> LitForm {
    LitForm::Keep(Kept {
        sum,
        relation,
        bound,
    })
}

#[test]
fn writes_literals(rt: HostRuntime) -> Result<(), Fail> {
    let alloc = rt.alloc();
    let names = places()?;
    let quotient = over(
        alloc,
        just(alloc, Atom::Var(0))?,
        just(alloc, Atom::Var(1))?,
    )?;
    let cases: [(LitForm, &[u8]); 8] = [
        (LitForm::Always, b""),
        (LitForm::Never, b""),
        (
            compared(mixed(alloc)?, Relation::Eq, 0),
            b"-a + b - 3*OLD a - 5 = 0",
        ),
        (
            compared(just(alloc, quotient)?, Relation::Ge, -3),
            b"(a DIV b) >= -3",
        ),
        (
            compared(just(alloc, Atom::Var(1))?, Relation::Ne, 0),
            b"b /= 0",
        ),
        (
            compared(just(alloc, Atom::Var(1))?, Relation::Lt, 1),
            b"b < 1",
        ),
        (
            compared(just(alloc, Atom::Var(1))?, Relation::Le, 8),
            b"b <= 8",
        ),
        (
            compared(just(alloc, Atom::Var(1))?, Relation::Gt, 8),
            b"b > 8",
        ),
    ];
    for (literal, text) in &cases {
        let mut sink = SureSink::new(alloc, 100)?;
        put_literal(&names, literal, &mut sink)?;
        assert_eq!(rt; sink.held(), *text);
    }
    Ok(())
}

#[test]
fn knows_places(rt: HostRuntime) -> Result<(), Fail> {
    let alloc = rt.alloc();
    assert!(rt; is_place(&just(alloc, Atom::Var(1))?, 1));
    assert!(rt; !is_place(&just(alloc, Atom::Var(1))?, 0));
    assert!(rt; !is_place(&multiple(alloc, 1, Atom::Var(1), 1)?, 1));
    assert!(rt; !is_place(&multiple(alloc, -1, Atom::Var(1), 0)?, 1));
    assert!(rt; !is_place(&number(alloc, 1), 1));
    Ok(())
}
