ghost use Rattle.std.specs.Prelude.{◌≡◌, ℕ, pos, int_le, List, ◌++◌, codes};
ghost use Rattle.std.specs.Fmt.{signed_decimal};
ghost use Rattle.sym_simplify.specs.Form.{constant, part};
ghost use Rattle.sym_simplify.specs.FormText.{coefficient_text, enclosed, factor_text, form_text, is_bare, literal_form_text, relation_text};
ghost use Rattle.sym_simplify.specs.Held.{factor_of, form_of};
ghost use Rattle.sym_simplify.specs.Literal.{literal_form_of};
ghost use Rattle.form_text.specs.Lists.{place_at};
ghost use Rattle.form_text.specs.Parts.{end_text, is_place, part_text, sign_text};
ghost use Rattle.form_text.specs.Pieces.{Puts};

use crate::pieces::put;
use crate::places::put_place;
use il_core::{Place, Relation};
use il_edge::{Failed, Sink};
use itoa::Buffer;
use sym_simplify::{Atom, LitForm, Normal, Part};

/// The sign of a part: in front of the first one, or behind others.
fn sign_of(first: bool, number: &i128) -> &[u8]
    ensures { result.now ≡ sign_text first number.now }
{
    match (first, *number < 0) {
        (true, true) => b"-",
        (true, false) => b"",
        (false, true) => b" - ",
        (false, false) => b" + ",
    }
}

/// Writes the sign of a part, and its coefficient where that is not 1 or -1.
fn put_coefficient<K: Sink>(first: bool, coefficient: &i128, sink: &mut K) -> Result<(), Failed>
    ensures { Puts K.held K.settled K.faults sink.old sink.new result (sign_text first coefficient.now ++ coefficient_text coefficient.now) }
{
    let sign = sign_of(first, coefficient);
    let size = coefficient.unsigned_abs();
    if size == 1 {
        return put(sink, &[sign]);
    }
    let mut digits = Buffer::new();
    put(sink, &[sign, digits.format(size).as_bytes(), b"*"])
}

/// Writes the constant of a normal term, alone or behind its parts; behind them 0 is not written.
fn put_constant<K: Sink>(alone: bool, number: &i128, sink: &mut K) -> Result<(), Failed>
    ensures { Puts K.held K.settled K.faults sink.old sink.new result (end_text alone number.now) }
{
    let mut digits = Buffer::new();
    if alone {
        return put(sink, &[digits.format(*number).as_bytes()]);
    }
    if *number == 0 {
        return Ok(());
    }
    let sign = sign_of(false, number);
    put(
        sink,
        &[sign, digits.format(number.unsigned_abs()).as_bytes()],
    )
}

fn is_natural(number: &i128) -> bool
    ensures { result ≡ int_le (pos 0) number.now }
{
    *number >= 0
}

/// Whether a part with a constant is one place alone.
fn is_place_alone(only: &Part, number: &i128) -> bool
    ensures { result ≡ is_bare (part only.now.coefficient (factor_of only.now.atom) (constant number.now)) }
{
    match only.atom {
        Atom::Var(_) => only.coefficient == 1 && *number == 0,
        Atom::Mul(_, _) | Atom::Div(_, _) | Atom::Mod(_, _) => false,
    }
}

/// Whether a side of an atom stands without parentheses: it is one place, or a constant of at least 0.
fn is_bare(side: &Normal) -> bool
    ensures { result ≡ is_bare (form_of side.now) }
{
    match side.parts.as_slice() {
        [] => is_natural(&side.constant),
        [only] => is_place_alone(only, &side.constant),
        _ => false,
    }
}

/// Whether a part with a constant is the place `at` alone.
fn is_place_with(only: &Part, number: &i128, at: usize) -> bool
    ensures { result ≡ is_place at (part only.now.coefficient (factor_of only.now.atom) (constant number.now)) }
{
    match only.atom {
        Atom::Var(place) => only.coefficient == 1 && place == at && *number == 0,
        Atom::Mul(_, _) | Atom::Div(_, _) | Atom::Mod(_, _) => false,
    }
}

/// Whether a normal term is the place `at`: that place once, and nothing else.
pub fn is_place(normal: &Normal, at: usize) -> bool
    ensures { result ≡ is_place at (form_of normal.now) }
{
    match normal.parts.as_slice() {
        [only] => is_place_with(only, &normal.constant, at),
        _ => false,
    }
}

/// What stands in front of a side of an atom and behind it.
fn brackets(bare: &bool) -> (&[u8], &[u8])
    ensures { (text : List ℕ) → enclosed bare.now text ≡ result.0.now ++ text ++ result.1.now }
{
    if *bare { (b"", b"") } else { (b"(", b")") }
}

/// Writes a normal term: its parts in their order, and the constant where it is not 0 or there is no part. The places
/// are written by their names. `Failed` comes only where the sink's count of faults rose in this call, and then a prefix
/// of the text was written. It takes no memory and costs time linear in the text; it calls itself as deep as the sides
/// of the term's atoms stand inside each other.
#[cycle(forms)]
pub fn put_normal<K: Sink>(places: &[Place], normal: &Normal, sink: &mut K) -> Result<(), Failed>
    ensures { Puts K.held K.settled K.faults sink.old sink.new result (form_text (place_at places.now) (form_of normal.now)) }
{
    let parts = normal.parts.as_slice();
    for (at, part) in parts.iter().enumerate() {
        match put_part(places, at == 0, part, sink) {
            Ok(()) => {}
            Err(failed) => return Err(failed),
        }
    }
    put_constant(parts.is_empty(), &normal.constant, sink)
}

/// Writes a part of a normal term, the first one or one behind others.
#[cycle(forms)]
fn put_part<K: Sink>(places: &[Place], first: bool, part: &Part, sink: &mut K) -> Result<(), Failed>
    ensures { Puts K.held K.settled K.faults sink.old sink.new result (part_text (place_at places.now) first part.now) }
{
    put_coefficient(first, &part.coefficient, sink)?;
    put_atom(places, &part.atom, sink)
}

#[cycle(forms)]
fn put_atom<K: Sink>(places: &[Place], atom: &Atom, sink: &mut K) -> Result<(), Failed>
    ensures { Puts K.held K.settled K.faults sink.old sink.new result (factor_text (place_at places.now) (factor_of atom.now)) }
{
    match atom {
        Atom::Var(place) => put_place(b"", places, *place, sink),
        Atom::Mul(left, right) => {
            put_side(places, b"", left, b"*", sink)?;
            put_side(places, b"", right, b"", sink)
        }
        Atom::Div(left, right) => {
            put_side(places, b"(", left, b" DIV ", sink)?;
            put_side(places, b"", right, b")", sink)
        }
        Atom::Mod(left, right) => {
            put_side(places, b"(", left, b" MOD ", sink)?;
            put_side(places, b"", right, b")", sink)
        }
    }
}

/// Writes a side of an atom, in parentheses where it needs them, between other bytes.
#[cycle(forms)]
fn put_side<K: Sink>(
    places: &[Place],
    before: &[u8],
    side: &Normal,
    behind: &[u8],
    sink: &mut K,
) -> Result<(), Failed>
    ensures { Puts K.held K.settled K.faults sink.old sink.new result (before.now ++ enclosed (is_bare (form_of side.now)) (form_text (place_at places.now) (form_of side.now)) ++ behind.now) }
{
    let bare = is_bare(side);
    let (open, close) = brackets(&bare);
    put(sink, &[before, open])?;
    put_normal(places, side, sink)?;
    put(sink, &[close, behind])
}

fn relation_of(relation: &Relation) -> &[u8]
    ensures { result.now ≡ relation_text relation.now }
{
    match relation {
        Relation::Eq => b"=",
        Relation::Ne => b"/=",
        Relation::Lt => b"<",
        Relation::Le => b"<=",
        Relation::Gt => b">",
        Relation::Ge => b">=",
    }
}

fn put_bound<K: Sink>(relation: &Relation, bound: &i128, sink: &mut K) -> Result<(), Failed>
    ensures { Puts K.held K.settled K.faults sink.old sink.new result (codes " " ++ relation_text relation.now ++ codes " " ++ signed_decimal bound.now) }
{
    let mut digits = Buffer::new();
    put(
        sink,
        &[
            b" ",
            relation_of(relation),
            b" ",
            digits.format(*bound).as_bytes(),
        ],
    )
}

/// Writes the form of a literal: its parts, its relation and its number; nothing where it always or never holds. `Failed`
/// comes only where the sink's count of faults rose in this call, and then a prefix of the text was written. It takes no
/// memory, costs time linear in the text, and calls itself as [`put_normal`] does.
pub fn put_literal<K: Sink>(places: &[Place], literal: &LitForm, sink: &mut K) -> Result<(), Failed>
    ensures { Puts K.held K.settled K.faults sink.old sink.new result (literal_form_text (place_at places.now) (literal_form_of literal.now)) }
{
    match literal {
        LitForm::Always | LitForm::Never => Ok(()),
        LitForm::Keep(kept) => {
            put_normal(places, &kept.sum, sink)?;
            put_bound(&kept.relation, &kept.bound, sink)
        }
    }
}
