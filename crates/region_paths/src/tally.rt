//! What the paths of a region come to, capped.
ghost use Rattle.std.specs.Prelude.{◌≡◌, ◌≤◌, ◌<◌, ◌+◌, ◌-◌, List, All, IfSome, Some, length, map, slice_get, slice_set};
ghost use Rattle.std.specs.Bool.{OnTrue};
ghost use Rattle.sym_terms.specs.Tree.{Tree};
ghost use Rattle.sym_terms.specs.Measure.{measured, IsCapped};
ghost use Rattle.sym_terms.specs.Comparison.{comparison_of, comparison_under, ComparesPlacesBelow};
ghost use Rattle.region_paths.specs.Tally.{comparison_measured, IsTally, IsGrown, empty, outcome};
ghost use Rattle.region_paths.specs.Tally as spec;
ghost use Rattle.region_paths.specs.Size.{limit_passed};

use crate::limit::Limit;
use sym_terms::{DEPTH_CAP, Literal, NODE_CAP, TermMeasure, WEIGHT_CAP, measure};

/// The most long paths that a region within its size has.
pub const MOST_PATHS: u64 = 16_384;

/// How many paths there are so far, how many nodes their comparisons and assigned terms have together, and the
/// greatest weight and depth among these. The last three stop at the caps of a measure.
#[derive(Clone, Copy, Debug, PartialEq, Eq)]
pub struct Tally {
    /// The number of paths.
    pub paths: u64,
    /// The nodes.
    pub nodes: u64,
    /// The greatest weight.
    pub weight: u128,
    /// The greatest depth.
    pub depth: u32,
}

impl Tally {
    /// No path.
    pub fn empty() -> Tally
        ensures { result ≡ empty }
    {
        Tally {
            paths: 0,
            nodes: 0,
            weight: 0,
            depth: 0,
        }
    }

    /// One path more; false where there are too many.
    pub fn add_path(&mut self) -> bool
        requires tally { IsTally self.old }
        ensures exact { outcome result self.new ≡ spec.with_path self.old }
        ensures grown { OnTrue result (IsGrown self.old self.new) }
    {
        let room = self.paths < MOST_PATHS;
        if room {
            self.paths += 1;
        }
        room
    }

    /// A comparison or a term of this size that stands on each path behind the first `before`.
    pub fn meet(&mut self, size: TermMeasure, before: u64)
        requires tally { IsTally self.old }
        requires capped { IsCapped size }
        requires before { before ≤ self.old.paths }
        ensures exact { self.new ≡ spec.with_size size (self.old.paths - before) self.old }
        ensures sound { IsTally self.new }
    {
        let count = self.paths - before;
        self.nodes = (self.nodes + size.nodes * count).min(NODE_CAP);
        self.weight = self.weight.max(size.weight);
        self.depth = self.depth.max(size.depth);
    }

    /// The first limit that is passed.
    pub fn limit(self) -> Option<Limit>
        ensures { result ≡ limit_passed self.paths self.nodes self.weight self.depth }
    {
        if self.paths > MOST_PATHS {
            Some(Limit::Rows)
        } else if self.nodes > 2_097_152 {
            Some(Limit::Nodes)
        } else if self.weight >= WEIGHT_CAP {
            Some(Limit::Weight)
        } else if self.depth > 1_000 {
            Some(Limit::Depth)
        } else {
            None
        }
    }
}

/// The size of the comparison in which each place is replaced by a term of the size that `env` gives the place.
pub fn comparison_measure(literal: &Literal, env: &[TermMeasure]) -> TermMeasure
    requires places { ComparesPlacesBelow (length env.now) (comparison_of literal.now) }
    requires capped { All IsCapped env.now }
    ensures exact { (terms : List Tree) → map measured terms ≡ env.now → result ≡ comparison_measured (comparison_under terms (comparison_of literal.now)) }
    ensures capped { IsCapped result }
{
    let left = measure(&literal.left, env);
    let right = measure(&literal.right, env);
    TermMeasure {
        nodes: (left.nodes + right.nodes).min(NODE_CAP),
        weight: (left.weight + right.weight).min(WEIGHT_CAP),
        depth: left.depth.max(right.depth).min(DEPTH_CAP),
    }
}

/// Puts a place's size in place of the one before, which it answers.
pub fn exchange(env: &mut [TermMeasure], place: usize, size: TermMeasure) -> TermMeasure
    requires place { place < length env.old }
    requires sound { All IsCapped env.old }
    requires capped { IsCapped size }
    ensures before { slice_get env.old place ≡ Some result }
    ensures after { env.new ≡ slice_set env.old place size }
    ensures sound { All IsCapped env.new }
    ensures capped { IsCapped result }
{
    let was = env[place];
    env[place] = size;
    was
}
