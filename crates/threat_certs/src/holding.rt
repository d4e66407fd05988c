//! Whether a certificate is accepted for a threat.
ghost use Rattle.std.specs.Prelude.{◌≡◌, ◌≤◌, ◌<◌, ◌↔◌, All, Some, None, map, replicate, length, slice_set, IfOk, OnOk, IsTrue};
ghost use Rattle.il_core.specs.Certificate.{certificate_of, nesting};
ghost use Rattle.il_core.specs.Places.{AreCheckedPlaces};
ghost use Rattle.sym_simplify.specs.Easy.{IsKept};
ghost use Rattle.sym_simplify.specs.Literal.{literal_form_of};
ghost use Rattle.sym_simplify.specs.Places.{HasLiteralPlacesBelow};
ghost use Rattle.cert_rules.specs.Acceptance.{IsAccepted, Refutes};
ghost use Rattle.threat_certs.specs.Measuring.{on_sides, IsUnequalAt};

use crate::quantity::{Subject, comparison_at, side_at};
use crate::summing::is_negative_sum;
use compliance::Threat;
use il_core::{Cert, NoMemory, Place, Relation};
use std::alloc::Global;

/// The greatest number of splits inside one another.
const NESTED: usize = 16;

/// No literal of this many is split.
fn unsplit(alloc: Global, count: usize) -> Result<Vec<Option<Relation>>, NoMemory>
    ensures { IfOk result (λ v. v.items ≡ replicate count None) }
{
    Ok(vec![in alloc; None; count]?)
}

/// Whether a literal is a `/=` that is not split.
fn is_unequal(subject: &Subject<'_>, sides: &[Option<Relation>], at: usize) -> bool
    requires kept { All (λ l. IsKept (literal_form_of l)) subject.now.literals.now }
    requires sides { length sides.now ≡ length subject.now.literals.now }
    ensures { IsTrue result ↔ IsUnequalAt (on_sides subject.now.literals.now sides.now) at }
{
    match comparison_at(subject, sides, at) {
        Some(literal) => literal.relation == Relation::Ne,
        None => false,
    }
}

/// Whether each sum of a certificate is negative with a literal on one side, and splits nest at most `depth` deep in it.
#[cycle(refuting)]
fn refutes_on(
    alloc: Global,
    subject: &Subject<'_>,
    sides: &mut [Option<Relation>],
    at: usize,
    side: Relation,
    cert: &Cert,
    depth: usize,
) -> Result<bool, NoMemory>
    requires kept { All (λ l. IsKept (literal_form_of l)) subject.now.literals.now }
    requires sides { length sides.old ≡ length subject.now.literals.now }
    requires at { at < length sides.old }
    ensures unchanged { OnOk result (sides.new ≡ sides.old) }
    ensures refuted { IfOk result (λ b. IsTrue b ↔ ((nesting (certificate_of cert.now) ≤ depth) × Refutes subject.now.places.now subject.now.pc (on_sides subject.now.literals.now (slice_set sides.old at (Some side))) (certificate_of cert.now))) }
{
    let before = side_at(sides, at);
    sides[at] = Some(side);
    let refuted = refutes(alloc, subject, sides, cert, depth)?;
    sides[at] = before;
    Ok(refuted)
}

/// Whether each sum of a certificate is negative, and splits nest at most `depth` deep in it.
#[cycle(refuting)]
fn refutes(
    alloc: Global,
    subject: &Subject<'_>,
    sides: &mut [Option<Relation>],
    cert: &Cert,
    depth: usize,
) -> Result<bool, NoMemory>
    requires kept { All (λ l. IsKept (literal_form_of l)) subject.now.literals.now }
    requires sides { length sides.old ≡ length subject.now.literals.now }
    ensures unchanged { OnOk result (sides.new ≡ sides.old) }
    ensures refuted { IfOk result (λ b. IsTrue b ↔ ((nesting (certificate_of cert.now) ≤ depth) × Refutes subject.now.places.now subject.now.pc (on_sides subject.now.literals.now sides.old) (certificate_of cert.now))) }
{
    match cert {
        Cert::Sum(shares) => is_negative_sum(alloc, subject, sides, shares.as_slice()),
        Cert::Split(at, low, high) => {
            if depth == 0 || !is_unequal(subject, sides, *at) {
                return Ok(false);
            }
            let below = refutes_on(alloc, subject, sides, *at, Relation::Lt, low, depth - 1)?;
            if !below {
                return Ok(false);
            }
            refutes_on(alloc, subject, sides, *at, Relation::Gt, high, depth - 1)
        }
    }
}

/// Whether a certificate is accepted for the literals of a threat, over the places of its procedure: splits nest at most
/// 16 deep in it, each of them splits a `/=` that is not split yet, and each sum of 1 to 128 shares, each 1 to 65,536
/// times, leaves nothing but a number below 0. The literals are over these places, and are such as
/// [`least_input`](path_inputs::least_input) takes. `NoMemory` comes only where memory runs out.
///
/// Each sum is added up share by share: a share costs as many steps as its literal has parts and as the sum so far has.
/// The stack holds as many calls as splits nest, at most 17, and as the atoms of a literal are deep.
pub fn holds(
    alloc: Global,
    places: &[Place],
    threat: &Threat,
    cert: &Cert,
) -> Result<bool, NoMemory>
    requires places { AreCheckedPlaces places.now }
    requires below { All (λ l. HasLiteralPlacesBelow (length places.now) (literal_form_of l)) threat.now.literals }
    requires kept { All (λ l. IsKept (literal_form_of l)) threat.now.literals }
    ensures { IfOk result (λ b. IsTrue b ↔ IsAccepted places.now threat.now.region (map literal_form_of threat.now.literals) (certificate_of cert.now)) }
{
    let literals = threat.literals.as_slice();
    let mut sides = unsplit(alloc, literals.len())?;
    let subject = Subject {
        places,
        pc: threat.region,
        literals,
    };
    refutes(alloc, &subject, &mut sides, cert, NESTED)
}
