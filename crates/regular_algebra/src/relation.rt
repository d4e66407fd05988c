//! Relations on few points, as rows of bits.
ghost use Rattle.std.specs.Prelude.{◌≡◌, ◌<◌, ◌≤◌, ◌↔◌, ◌⊎◌, ℕ, IsTrue, MatchOption, slice_index};
ghost use Rattle.regular_algebra.specs.Relations.{Turns};
ghost use Rattle.regular_algebra.specs.Relation.{HasBit, Joins};

use crate::algebra::Algebra;
use il_core::NoMemory;
use std::alloc::Global;

/// The number of points of a `BitRelation`.
const POINTS: usize = 66;

/// A relation on the points 0 to 65. It holds a bit for each pair, so its functions take no memory beside it; `plus` takes
/// time linear in the points, `times` linear in the points and the pairs that the left relation joins, `star` quadratic.
#[derive(Drop)]
pub struct BitRelation {
    rows: [u128; POINTS],
}

impl BitRelation {
    /// The relation that joins nothing.
    pub fn empty() -> BitRelation
        ensures { (a b : ℕ) → Joins result a b → ⊥ }
    {
        BitRelation { rows: [0; POINTS] }
    }

    /// Joins `a` and `b`, which are below 66, and keeps all else.
    pub fn set(&mut self, a: usize, b: usize)
        requires first { a < 66 }
        requires second { b < 66 }
        ensures { (x y : ℕ) → Joins self.new x y ↔ (Joins self.old x y ⊎ ((x ≡ a) × (y ≡ b))) }
    {
        self.add_row(a, bit(b));
    }

    /// Whether `a` and `b`, which are below 66, are joined.
    pub fn has(&self, a: usize, b: usize) -> bool
        requires first { a < 66 }
        requires second { b < 66 }
        ensures { IsTrue result ↔ Joins self.now a b }
    {
        has_bit(self.rows[a], b)
    }

    /// Joins `a` and each point of the row.
    fn add_row(&mut self, a: usize, row: u128)
        requires { a < 66 }
        ensures { (x y : ℕ) → Joins self.new x y ↔ (Joins self.old x y ⊎ ((x ≡ a) × (y < 66) × HasBit row y)) }
    {
        self.rows[a] |= row;
    }

    fn copied(&self) -> BitRelation
        ensures { result ≡ self.now }
    {
        BitRelation { rows: self.rows }
    }

    /// The points that `a` is joined to, where `row` has the point `a`, and none otherwise.
    fn row_if(&self, row: u128, a: usize) -> u128
        requires { a < 66 }
        ensures { (y : ℕ) → HasBit result y ↔ (HasBit row a × HasBit (slice_index self.now.rows a) y) }
    {
        if has_bit(row, a) { self.rows[a] } else { 0 }
    }

    /// The points that a point of the row is joined to. It takes a step for each point that the row has.
    fn row_through(&self, row: u128) -> u128
        ensures { (y : ℕ) → HasBit result y ↔ ((c : ℕ) × (c < 66) × HasBit row c × HasBit (slice_index self.now.rows c) y) }
    {
        let mut joined = 0;
        let mut from = 0;
        while let Some(point) = next_point(row, from) {
            joined |= self.rows[point];
            from = point + 1;
        }
        joined
    }

    fn united(&self, other: &BitRelation) -> BitRelation
        ensures { (x y : ℕ) → Joins result x y ↔ (Joins self.now x y ⊎ Joins other.now x y) }
    {
        let mut sum = self.copied();
        for a in 0..POINTS {
            sum.add_row(a, other.rows[a]);
        }
        sum
    }

    fn composed(&self, other: &BitRelation) -> BitRelation
        ensures { (x y : ℕ) → Joins result x y ↔ ((c : ℕ) × Joins self.now x c × Joins other.now c y) }
    {
        let mut product = BitRelation::empty();
        for a in 0..POINTS {
            product.add_row(a, other.row_through(self.rows[a]));
        }
        product
    }

    fn with_diagonal(&self) -> BitRelation
        ensures { (x y : ℕ) → Joins result x y ↔ (Joins self.now x y ⊎ ((x ≡ y) × (x < 66))) }
    {
        let mut turned = self.copied();
        for a in 0..POINTS {
            turned.set(a, a);
        }
        turned
    }

    /// Joins what goes through `k`.
    fn pass(&mut self, k: usize)
        requires { k < 66 }
        ensures { (x y : ℕ) → Joins self.new x y ↔ (Joins self.old x y ⊎ (Joins self.old x k × Joins self.old k y)) }
    {
        for a in 0..POINTS {
            let through = self.row_if(self.rows[a], k);
            self.add_row(a, through);
        }
    }

    /// Each point to itself and through any number of turns (Warshall's algorithm).
    fn closed(&self) -> BitRelation
        ensures { (x y : ℕ) → Joins result x y ↔ Turns (λ a. a < 66) (Joins self.now) x y }
    {
        let mut turned = self.with_diagonal();
        for k in 0..POINTS {
            turned.pass(k);
        }
        turned
    }
}

/// The row that has the point `b` alone.
fn bit(b: usize) -> u128
    requires { b < 66 }
    ensures { (y : ℕ) → HasBit result y ↔ (y ≡ b) }
{
    1 << b
}

/// The first point of the row that is not below `from`; `None` where it has none.
fn next_point(row: u128, from: usize) -> Option<usize>
    requires { from < 67 }
    ensures { MatchOption result ((d : ℕ) → from ≤ d → d < 66 → HasBit row d → ⊥) (λ c. (from ≤ c) × (c < 66) × HasBit row c × ((d : ℕ) → from ≤ d → d < c → HasBit row d → ⊥)) }
{
    let left = row >> from;
    if left == 0 {
        return None;
    }
    let point = from + left.trailing_zeros() as usize;
    if point < POINTS { Some(point) } else { None }
}

/// Whether the row has the point `b`.
fn has_bit(row: u128, b: usize) -> bool
    requires { b < 66 }
    ensures { IsTrue result ↔ HasBit row b }
{
    row >> b & 1 == 1
}

impl Algebra for BitRelation {
    type Point = usize;

    ghost is_point = { λ a. a < 66 };

    ghost joins = { Joins };

    fn zero(_alloc: Global) -> Result<BitRelation, NoMemory> {
        Ok(BitRelation::empty())
    }

    fn plus(&self, _alloc: Global, other: &BitRelation) -> Result<BitRelation, NoMemory> {
        Ok(self.united(other))
    }

    fn times(&self, _alloc: Global, other: &BitRelation) -> Result<BitRelation, NoMemory> {
        Ok(self.composed(other))
    }

    fn star(&self, _alloc: Global) -> Result<BitRelation, NoMemory> {
        Ok(self.closed())
    }

    ghost only_points = { λ r a b h. (h.0, h.1) };
}
