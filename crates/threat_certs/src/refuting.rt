//! Certificates of plainly refuted literals.
//!
//! What is easy of the literals is a system of difference constraints. Where it has no solution a negative cycle
//! tells constraints whose sum is a negative number, and each of them is an item's quantity. A `/=` of which neither side
//! has a solution is split: the first eight together, and one more beside them.
ghost use Rattle.std.specs.Prelude.{◌≡◌, ◌<◌, ◌≤◌, ◌∷◌, [], Some, All, length, map, take, drop, slice_get, IfOk, MatchOption};
ghost use Rattle.il_core.specs.Places.{AreCheckedPlaces};
ghost use Rattle.il_core.specs.Certificate.{split, certificate_of};
ghost use Rattle.difference.specs.Constraints.{IsRange, IsGiven};
ghost use Rattle.difference.specs.Answers.{IsSplit};
ghost use Rattle.sym_simplify.specs.Literal.{literal_form_of};
ghost use Rattle.sym_simplify.specs.Easy.{IsKept};
ghost use Rattle.sym_simplify.specs.Places.{HasLiteralPlacesBelow};
ghost use Rattle.path_inputs.specs.Least.{IsPlainlyRefuted};
ghost use Rattle.cert_rules.specs.Acceptance.{IsAccepted};
ghost use Rattle.threat_certs.specs.Counting.{splits_among};
ghost use Rattle.threat_certs.specs.Making.{item_of, share_of, IsCountable, IsMade, IsMadeOfAll};

use crate::counting::{Bounds, Fork, forks_of, items_of};
use difference::{Edge, Range64, refute};
use il_core::{Cert, Item, List, NoMemory, Place, Share};
use path_inputs::{System, system_of};
use std::alloc::Global;
use sym_simplify::LitForm;

/// The number of `/=` literals that are split together.
const CORE: usize = 8;

/// The item at a place.
fn item_at(items: &[Item], place: usize) -> Item
    requires { place < length items.now }
    ensures { slice_get items.now place ≡ Some result }
{
    items[place]
}

/// The item of an edge.
fn item_of(items: &[Item], edge: Edge) -> Item
    requires { IsCountable (length items.now) edge }
    ensures { result ≡ item_of items.now edge }
{
    match edge {
        Edge::Low(place) => Item::Low(place),
        Edge::High(place) => Item::High(place),
        Edge::Given(constraint) => item_at(items, constraint),
    }
}

/// Each edge once.
fn shares_of(alloc: Global, items: &[Item], edges: &[Edge]) -> Result<Vec<Share>, NoMemory>
    requires { All (IsCountable (length items.now)) edges.now }
    ensures { IfOk result (λ v. v.items ≡ map (share_of items.now) edges.now) }
{
    let mut shares = Vec::new(alloc);
    for edge in edges {
        shares.push(Share {
            item: item_of(items, *edge),
            times: 1,
        })?;
    }
    Ok(shares)
}

/// A sum that shows that the bounds have no solution; `None` where they have one.
fn summed(alloc: Global, ranges: &[Range64], bounds: &Bounds) -> Result<Option<Cert>, NoMemory>
    requires ranges { All IsRange ranges.now }
    requires given { All (IsGiven (length ranges.now)) bounds.now.constraints.items }
    requires counted { length bounds.now.items.items ≡ length bounds.now.constraints.items }
    ensures { IfOk result (IsMade ranges.now bounds.now.constraints.items bounds.now.items.items []) }
{
    match refute(alloc, ranges, &bounds.constraints)? {
        Some(edges) => {
            let shares = shares_of(alloc, &bounds.items, edges.as_slice())?;
            Ok(Some(Cert::Sum(List::from_vec(shares))))
        }
        None => Ok(None),
    }
}

/// The first fork, and the others.
fn first_and_rest(forks: &[Fork]) -> Option<(Fork, &[Fork])>
    ensures { MatchOption result (forks.now ≡ []) (λ p. forks.now ≡ p.0 ∷ p.1.now) }
{
    match forks {
        [] => None,
        [first, rest @ ..] => Some((*first, rest)),
    }
}

/// The `/=` with this number split, with a certificate for each side.
fn split_at(alloc: Global, literal: usize, low: Cert, high: Cert) -> Result<Cert, NoMemory>
    ensures { IfOk result (λ c. certificate_of c ≡ split literal (certificate_of low) (certificate_of high)) }
{
    Ok(Cert::Split(literal, Box::new(alloc, low)?, Box::new(alloc, high)?))
}

/// A certificate that no choice of sides of the forks has a solution; `None` where one has. Bounds without a solution have
/// none with more of them, so no fork is split that is not needed.
fn search(
    alloc: Global,
    ranges: &[Range64],
    bounds: &Bounds,
    forks: &[Fork],
) -> Result<Option<Cert>, NoMemory>
    requires ranges { All IsRange ranges.now }
    requires given { All (IsGiven (length ranges.now)) bounds.now.constraints.items }
    requires counted { length bounds.now.items.items ≡ length bounds.now.constraints.items }
    requires splits { All (IsSplit (length ranges.now)) (splits_among forks.now) }
    ensures { IfOk result (IsMade ranges.now bounds.now.constraints.items bounds.now.items.items forks.now) }
{
    let sum = summed(alloc, ranges, bounds)?;
    if sum.is_some() {
        return Ok(sum);
    }
    let Some((fork, rest)) = first_and_rest(forks) else {
        return Ok(None);
    };
    let below = bounds.with(alloc, fork.split.low, Item::Up(fork.literal))?;
    let low = match search(alloc, ranges, &below, rest)? {
        Some(low) => low,
        None => return Ok(None),
    };
    let above = bounds.with(alloc, fork.split.high, Item::Down(fork.literal))?;
    let high = match search(alloc, ranges, &above, rest)? {
        Some(high) => high,
        None => return Ok(None),
    };
    let cert = split_at(alloc, fork.literal, low, high)?;
    Ok(Some(cert))
}

/// A fork before others.
fn with_first(alloc: Global, first: Fork, forks: &[Fork]) -> Result<Vec<Fork>, NoMemory>
    ensures { IfOk result (λ v. v.items ≡ first ∷ forks.now) }
{
    let mut all = Vec::new(alloc);
    all.push(first)?;
    all.extend_from_slice(forks)?;
    Ok(all)
}

/// A certificate that no choice of sides of the core, or none beside one of the others, has a solution; `None` where each
/// has one.
fn search_all(
    alloc: Global,
    ranges: &[Range64],
    bounds: &Bounds,
    core: &[Fork],
    others: &[Fork],
) -> Result<Option<Cert>, NoMemory>
    requires ranges { All IsRange ranges.now }
    requires given { All (IsGiven (length ranges.now)) bounds.now.constraints.items }
    requires counted { length bounds.now.items.items ≡ length bounds.now.constraints.items }
    requires core { All (IsSplit (length ranges.now)) (splits_among core.now) }
    requires others { All (IsSplit (length ranges.now)) (splits_among others.now) }
    requires few { length core.now ≤ 8 }
    ensures { IfOk result (IsMadeOfAll ranges.now bounds.now.constraints.items bounds.now.items.items core.now others.now) }
{
    let found = search(alloc, ranges, bounds, core)?;
    if found.is_some() {
        return Ok(found);
    }
    for other in others {
        let forks = with_first(alloc, *other, core)?;
        let found = search(alloc, ranges, bounds, &forks)?;
        if found.is_some() {
            return Ok(found);
        }
    }
    Ok(None)
}

/// The first eight forks, and the others.
fn core_and_others(forks: &[Fork]) -> (&[Fork], &[Fork])
    ensures core { result.0.now ≡ take 8 forks.now }
    ensures others { result.1.now ≡ drop 8 forks.now }
{
    match forks.split_at_checked(CORE) {
        Some(both) => both,
        None => (forks, &[]),
    }
}

/// A certificate for literals that are plainly refuted.
pub fn refutation(
    alloc: Global,
    places: &[Place],
    pc: usize,
    literals: &[LitForm],
) -> Result<Cert, NoMemory>
    requires places { AreCheckedPlaces places.now }
    requires below { All (λ l. HasLiteralPlacesBelow (length places.now) (literal_form_of l)) literals.now }
    requires kept { All (λ l. IsKept (literal_form_of l)) literals.now }
    requires refuted { IsPlainlyRefuted places.now pc (map literal_form_of literals.now) }
    ensures { IfOk result (λ c. IsAccepted places.now pc (map literal_form_of literals.now) (certificate_of c)) }
{
    let System {
        ranges,
        constraints,
        ..
    } = system_of(alloc, places, pc, literals)?;
    let items = items_of(alloc, places, pc, literals)?;
    let bounds = Bounds { constraints, items };
    let forks = forks_of(alloc, literals)?;
    let (core, others) = core_and_others(&forks);
    match search_all(alloc, &ranges, &bounds, core, others)? {
        Some(cert) => Ok(cert),
        None => unreachable!(),
    }
}
