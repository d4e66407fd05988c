//! Least inputs: which lists of literals are plainly refuted, and the least input of the others.
ghost use Rattle.std.specs.Prelude.{◌≡◌, ◌≤◌, ◌++◌, ◌^◌, ◌≤ℤ◌, pos, unsigned_abs, All, IfOk, IfSome, IsTrue, filter, length, map};
ghost use Rattle.il_core.specs.Checked.{is_copied, old_copy};
ghost use Rattle.il_core.specs.Places.{AreCheckedPlaces};
ghost use Rattle.sym_simplify.specs.Form.{constant, part, place};
ghost use Rattle.sym_simplify.specs.Held.{form_of, factor_of};
ghost use Rattle.sym_simplify.specs.Literal.{keep, literal_form_of};
ghost use Rattle.input_cases.specs.Asked.{IsVariable, IsAsked};

use il_core::{List, Mode, Name, NoMemory, Place, Relation};
use path_inputs::least_input;
use std::alloc::Global;
use std::process::Abort;
use std::test::Fail;
use sym_simplify::{Atom, Kept, LitForm, Normal, Part};

const LIMIT: i128 = 1 << 100;

const DIGIT: (Mode, i64, i64) = (Mode::Input, 0, 9);

const BIT: (Mode, i64, i64) = (Mode::Input, 0, 1);

const ANY: (Mode, i64, i64) = (Mode::Input, i64::MIN, i64::MAX);

const KEPT: (Mode, i64, i64) = (Mode::InOut, 0, 9);

/// What is compared, the relation and the bound.
#[derive(Clone, Copy)]
enum Written {
    Always,
    Never,
    /// A place as often as the number says.
    One(i128, usize, Relation, i128),
    /// Two places, each as often as the number before it says.
    Two(i128, usize, i128, usize, Relation, i128),
}

/// A list of literals over variables and their OLD copies, the first line of the region, and the least input.
type Case<'a> = (
    &'a str,
    &'a [(Mode, i64, i64)],
    usize,
    &'a [Written],
    Option<&'a [i64]>,
);

#[tactic(auto, using(sym_simplify::proofs::HeldParts::rolled))]
fn one(alloc: Global, coefficient: i128, at: usize) -> Result<Normal, NoMemory>
    ensures { IfOk result (λ n. form_of n ≡ part coefficient (place at) (constant (pos 0))) }
{
    let atom = Atom::Var(at);
    let parts = Vec::from_array(alloc, [Part { coefficient, atom }])?;
    Ok(Normal {
        constant: 0,
        parts: List::from_vec(parts),
    })
}

fn part_of(coefficient: i128, at: usize) -> Part
    ensures coefficient { result.coefficient ≡ coefficient }
    ensures atom { factor_of result.atom ≡ place at }
{
    Part {
        coefficient,
        atom: Atom::Var(at),
    }
}

#[tactic(auto, using(sym_simplify::proofs::HeldParts::rolled))]
fn two(
    alloc: Global,
    first: i128,
    left: usize,
    second: i128,
    right: usize,
) -> Result<Normal, NoMemory>
    ensures { IfOk result (λ n. form_of n ≡ part first (place left) (part second (place right) (constant (pos 0)))) }
{
    let parts = Vec::from_array(alloc, [part_of(first, left), part_of(second, right)])?;
    Ok(Normal {
        constant: 0,
        parts: List::from_vec(parts),
    })
}

fn compared(sum: Normal, relation: Relation, bound: i128) -> LitForm
    ensures { literal_form_of result ≡ keep (form_of sum) relation bound }
{
    LitForm::Keep(Kept {
        sum,
        relation,
        bound,
    })
}

fn is_small(number: i128) -> bool
    ensures { IsTrue result → unsigned_abs number ≤ 2 ^ 100 }
{
    number.unsigned_abs() <= 1 << 100
}

#[tactic(auto, using(crate::proofs::AskedForms::one_asked))]
fn one_compared(
    alloc: Global,
    places: usize,
    coefficient: i128,
    at: usize,
    relation: Relation,
    bound: i128,
) -> Result<Option<LitForm>, NoMemory>
    ensures { IfOk result (λ o. IfSome o (λ l. IsAsked places (literal_form_of l))) }
{
    if coefficient <= 0 || !is_small(coefficient) || !is_small(bound) {
        return Ok(None);
    }
    if at >= places {
        return Ok(None);
    }
    let sum = one(alloc, coefficient, at)?;
    Ok(Some(compared(sum, relation, bound)))
}

#[tactic(auto, using(crate::proofs::AskedForms::two_asked))]
fn two_compared(
    alloc: Global,
    places: usize,
    first: i128,
    left: usize,
    second: i128,
    right: usize,
    relation: Relation,
    bound: i128,
) -> Result<Option<LitForm>, NoMemory>
    ensures { IfOk result (λ o. IfSome o (λ l. IsAsked places (literal_form_of l))) }
{
    if first <= 0 || !is_small(first) || second == 0 || !is_small(second) || !is_small(bound) {
        return Ok(None);
    }
    if left >= right || right >= places {
        return Ok(None);
    }
    let sum = two(alloc, first, left, second, right)?;
    Ok(Some(compared(sum, relation, bound)))
}

/// The literal, where it is one over `places` places with small numbers.
fn literal(alloc: Global, places: usize, written: Written) -> Result<Option<LitForm>, NoMemory>
    ensures { IfOk result (λ o. IfSome o (λ l. IsAsked places (literal_form_of l))) }
{
    match written {
        Written::Always => Ok(Some(LitForm::Always)),
        Written::Never => Ok(Some(LitForm::Never)),
        Written::One(coefficient, at, relation, bound) => {
            one_compared(alloc, places, coefficient, at, relation, bound)
        }
        Written::Two(first, left, second, right, relation, bound) => two_compared(
            alloc, places, first, left, second, right, relation, bound,
        ),
    }
}

fn literals(
    alloc: Global,
    places: usize,
    written: &[Written],
) -> Result<Option<Vec<LitForm>>, NoMemory>
    ensures { IfOk result (λ o. IfSome o (λ v. All (λ l. IsAsked places (literal_form_of l)) v.items)) }
{
    let mut forms = Vec::new(alloc);
    for one in written {
        let Some(form) = literal(alloc, places, *one)? else {
            return Ok(None);
        };
        forms.push(form)?;
    }
    Ok(Some(forms))
}

fn variable(name: Name, mode: Mode, least: i64, greatest: i64) -> Place
    requires { least ≤ℤ greatest }
    ensures { IsVariable result }
{
    Place {
        name,
        mode,
        old: false,
        flag: false,
        wrap: false,
        least,
        greatest,
    }
}

fn variables(
    alloc: Global,
    name: Name,
    rows: &[(Mode, i64, i64)],
) -> Result<Option<Vec<Place>>, NoMemory>
    ensures { IfOk result (λ o. IfSome o (λ v. All IsVariable v.items)) }
{
    let mut found = Vec::new(alloc);
    for row in rows {
        let (mode, least, greatest) = *row;
        if least > greatest {
            return Ok(None);
        }
        found.push(variable(name, mode, least, greatest))?;
    }
    Ok(Some(found))
}

fn with_copies(alloc: Global, variables: &[Place]) -> Result<Vec<Place>, NoMemory>
    ensures { IfOk result (λ v. v.items ≡ variables.now ++ map old_copy (filter is_copied variables.now)) }
{
    let mut places = Vec::from_slice(alloc, variables)?;
    for place in variables {
        if place.mode == Mode::InOut {
            places.push(Place {
                old: true,
                ..*place
            })?;
        }
    }
    Ok(places)
}

#[tactic(auto, using(crate::proofs::AskedForms::places_checked))]
fn places(
    alloc: Global,
    name: Name,
    rows: &[(Mode, i64, i64)],
) -> Result<Option<Vec<Place>>, NoMemory>
    ensures { IfOk result (λ o. IfSome o (λ v. AreCheckedPlaces v.items)) }
{
    let Some(variables) = variables(alloc, name, rows)? else {
        return Ok(None);
    };
    let places = with_copies(alloc, &variables)?;
    if places.len() > 64 {
        return Ok(None);
    }
    Ok(Some(places))
}

#[tactic(auto, using(crate::proofs::AskedForms::all_kept, crate::proofs::AskedForms::all_below))]
fn asked(
    alloc: Global,
    places: &[Place],
    pc: usize,
    literals: &[LitForm],
) -> Result<Option<List<i64>>, NoMemory>
    requires places { AreCheckedPlaces places.now }
    requires literals { All (λ l. IsAsked (length places.now) (literal_form_of l)) literals.now }
{
    least_input(alloc, places, pc, literals)
}

/// The least input, where the case is one that may be asked.
fn answer(
    alloc: Global,
    rows: &[(Mode, i64, i64)],
    pc: usize,
    written: &[Written],
) -> Result<Option<Option<List<i64>>>, NoMemory> {
    let Some(name) = Name::new(b"x") else {
        return Ok(None);
    };
    let Some(places) = places(alloc, name, rows)? else {
        return Ok(None);
    };
    let Some(literals) = literals(alloc, places.len(), written)? else {
        return Ok(None);
    };
    Ok(Some(asked(alloc, &places, pc, &literals)?))
}

#[test]
fn bounds_are_divided(rt: HostRuntime) -> Result<(), Fail> {
    use Relation::{Eq, Ge, Gt, Le, Lt};
    use Written::{Always, Never, One, Two};
    let cases: [Case<'_>; 15] = [
        (
            "no literals",
            &[DIGIT, (Mode::Local, -5, 5)],
            0,
            &[],
            Some(&[0, -5]),
        ),
        ("no places", &[], 0, &[], Some(&[])),
        ("always", &[DIGIT], 0, &[Always], Some(&[0])),
        ("never", &[DIGIT], 0, &[Always, Never], None),
        ("3x <= 10", &[DIGIT], 0, &[One(3, 0, Le, 10)], Some(&[0])),
        ("3x >= 10", &[DIGIT], 0, &[One(3, 0, Ge, 10)], Some(&[4])),
        (
            "3x = 10 by bounds",
            &[DIGIT],
            0,
            &[One(3, 0, Le, 10), One(3, 0, Ge, 10)],
            None,
        ),
        (
            "3x = 9 by bounds",
            &[DIGIT],
            0,
            &[One(3, 0, Lt, 10), One(3, 0, Gt, 8)],
            Some(&[3]),
        ),
        ("2x = 5", &[DIGIT], 0, &[One(2, 0, Eq, 5)], None),
        ("2x = 6", &[DIGIT], 0, &[One(2, 0, Eq, 6)], Some(&[3])),
        (
            "3x - 3y >= 7",
            &[DIGIT, DIGIT],
            0,
            &[Two(3, 0, -3, 1, Ge, 7)],
            Some(&[3, 0]),
        ),
        (
            "2x - 2y <= -5",
            &[DIGIT, DIGIT],
            0,
            &[Two(2, 0, -2, 1, Le, -5)],
            Some(&[0, 3]),
        ),
        (
            "4x - 4y = 6",
            &[DIGIT, DIGIT],
            0,
            &[Two(4, 0, -4, 1, Eq, 6)],
            None,
        ),
        (
            "hard literals decide nothing",
            &[DIGIT, DIGIT],
            0,
            &[Two(1, 0, 1, 1, Eq, 50), One(1, 0, Ge, 2)],
            Some(&[2, 0]),
        ),
        (
            "hard and refuted",
            &[DIGIT, DIGIT],
            0,
            &[Two(2, 0, -1, 1, Eq, 4), One(1, 0, Gt, 9)],
            None,
        ),
    ];
    for (name, rows, pc, written, want) in cases {
        let found = answer(rt.alloc(), rows, pc, written)?;
        assert!(rt; found.is_some(), "{name}");
        for input in found {
            let values = input.as_ref().map(|values| values.as_slice());
            assert_eq!(rt; values, want, "{name}");
        }
    }
    Ok(())
}

#[test]
fn disequalities_are_split(rt: HostRuntime) -> Result<(), Fail> {
    use Relation::{Eq, Le, Ne};
    use Written::{One, Two};
    let eight: [Written; 8] = [
        One(1, 0, Ne, 0),
        One(1, 0, Ne, 1),
        One(1, 0, Ne, 2),
        One(1, 0, Ne, 3),
        One(1, 0, Ne, 4),
        One(1, 0, Ne, 5),
        One(1, 0, Ne, 6),
        One(1, 0, Ne, 7),
    ];
    let mut nine = Vec::from_slice(rt.alloc(), &eight)?;
    nine.push(One(1, 0, Ne, 8))?;
    let mut repeated = Vec::new(rt.alloc());
    for _ in 0..8 {
        repeated.push(One(1, 0, Ne, 0))?;
    }
    repeated.push(One(1, 0, Ne, 1))?;
    let octal = (Mode::Input, 0, 8);
    let cases: [Case<'_>; 11] = [
        (
            "x /= 0 in 0 .. 1",
            &[BIT],
            0,
            &[One(1, 0, Ne, 0)],
            Some(&[1]),
        ),
        (
            "x /= 0 in 0 .. 9",
            &[DIGIT],
            0,
            &[One(1, 0, Ne, 0)],
            Some(&[1]),
        ),
        ("below first", &[DIGIT], 0, &[One(1, 0, Ne, 5)], Some(&[0])),
        (
            "3x /= 5 always holds, yet is split",
            &[DIGIT],
            0,
            &[One(3, 0, Ne, 5)],
            Some(&[0]),
        ),
        (
            "x < y first",
            &[DIGIT, DIGIT],
            0,
            &[Two(1, 0, -1, 1, Ne, 0)],
            Some(&[0, 1]),
        ),
        (
            "two of two values",
            &[BIT],
            0,
            &[One(1, 0, Ne, 0), One(1, 0, Ne, 1)],
            None,
        ),
        ("eight", &[octal], 0, &eight, Some(&[8])),
        ("the ninth alone refutes", &[octal], 0, &nine, None),
        ("the ninth decides no side", &[DIGIT], 0, &nine, Some(&[8])),
        ("repeats count", &[BIT], 0, &repeated, None),
        (
            "a repeat decides no side",
            &[DIGIT],
            0,
            &repeated,
            Some(&[1]),
        ),
    ];
    for (name, rows, pc, written, want) in cases {
        let found = answer(rt.alloc(), rows, pc, written)?;
        assert!(rt; found.is_some(), "{name}");
        for input in found {
            let values = input.as_ref().map(|values| values.as_slice());
            assert_eq!(rt; values, want, "{name}");
        }
    }
    Ok(())
}

#[test]
fn copies_and_limits(rt: HostRuntime) -> Result<(), Fail> {
    use Relation::{Ge, Gt, Le, Lt, Ne};
    use Written::{One, Two};
    let span = i128::from(u64::MAX);
    let most = i128::from(i64::MAX);
    let cases: [Case<'_>; 13] = [
        (
            "an OLD copy at line 0",
            &[KEPT],
            0,
            &[One(1, 0, Ge, 4)],
            Some(&[4, 4]),
        ),
        (
            "an OLD copy elsewhere",
            &[KEPT],
            3,
            &[One(1, 0, Ge, 4)],
            Some(&[4, 0]),
        ),
        (
            "a copy above its variable",
            &[KEPT],
            0,
            &[One(1, 1, Ge, 4), One(1, 0, Le, 3)],
            None,
        ),
        (
            "and not at line 0",
            &[KEPT],
            1,
            &[One(1, 1, Ge, 4), One(1, 0, Le, 3)],
            Some(&[0, 4]),
        ),
        (
            "a copy apart",
            &[BIT, KEPT],
            0,
            &[Two(1, 1, -1, 2, Ne, 0)],
            None,
        ),
        (
            "the greatest bound",
            &[DIGIT],
            0,
            &[One(1, 0, Le, LIMIT)],
            Some(&[0]),
        ),
        ("beyond it", &[DIGIT], 0, &[One(1, 0, Gt, LIMIT)], None),
        (
            "the least bound",
            &[DIGIT],
            0,
            &[One(1, 0, Ge, -LIMIT)],
            Some(&[0]),
        ),
        ("below it", &[DIGIT], 0, &[One(1, 0, Lt, -LIMIT)], None),
        (
            "the greatest coefficient",
            &[DIGIT],
            0,
            &[One(LIMIT, 0, Gt, 0)],
            Some(&[1]),
        ),
        (
            "the end of 64 bits",
            &[ANY],
            0,
            &[One(1, 0, Ge, most)],
            Some(&[i64::MAX]),
        ),
        (
            "both ends",
            &[ANY, ANY],
            0,
            &[Two(1, 0, -1, 1, Ge, span)],
            Some(&[i64::MAX, i64::MIN]),
        ),
        (
            "wider than 64 bits",
            &[ANY, ANY],
            0,
            &[Two(1, 0, -1, 1, Gt, span)],
            None,
        ),
    ];
    for (name, rows, pc, written, want) in cases {
        let found = answer(rt.alloc(), rows, pc, written)?;
        assert!(rt; found.is_some(), "{name}");
        for input in found {
            let values = input.as_ref().map(|values| values.as_slice());
            assert_eq!(rt; values, want, "{name}");
        }
    }
    Ok(())
}
