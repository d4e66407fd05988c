ghost use Rattle.std.specs.Prelude.{◌≡◌, ◌≤◌, List, All, length, map};
ghost use Rattle.sym_terms.specs.Tree.{Tree, tree_of};
ghost use Rattle.sym_terms.specs.Substitution.{substituted, HasPlacesBelow};
ghost use Rattle.sym_terms.specs.Measure.{measured, IsCapped};
ghost use Rattle.sym_terms.specs.Measure as spec;

use crate::Term;

/// The greatest number of nodes that a measure tells.
pub const NODE_CAP: u64 = 2_097_153;
/// The greatest weight that a measure tells.
pub const WEIGHT_CAP: u128 = 1 << 100;
/// The greatest depth that a measure tells.
pub const DEPTH_CAP: u32 = 1_001;

/// How large a term is. Each number stops at its cap, which stands for all greater numbers too.
#[derive(Clone, Copy, Debug, PartialEq, Eq)]
pub struct TermMeasure {
    /// The number of nodes.
    pub nodes: u64,
    /// A bound on what the term can grow to: the greater of 1 and the absolute value for a number, 1 for a variable,
    /// the product of both sides for a product, and the sum of both sides otherwise.
    pub weight: u128,
    /// The number of nodes on the longest way down.
    pub depth: u32,
}

/// The measure of the term in which each place is replaced by a term with the measure that `env` gives the place.
/// It takes no memory and builds no term.
pub fn measure(term: &Term, env: &[TermMeasure]) -> TermMeasure
    requires places { HasPlacesBelow (length env.now) (tree_of term.now) }
    requires capped { All IsCapped env.now }
    ensures exact { (terms : List Tree) → map measured terms ≡ env.now → result ≡ measured (substituted terms (tree_of term.now)) }
    ensures capped { IsCapped result }
{
    measure_in(term, env)
}

/// The measure by the places' measures.
fn measure_in(term: &Term, env: &[TermMeasure]) -> TermMeasure
    requires places { HasPlacesBelow (length env.now) (tree_of term.now) }
    requires capped { All IsCapped env.now }
    ensures value { result ≡ spec.measure_of env.now (tree_of term.now) }
    ensures capped { IsCapped result }
{
    match term {
        Term::Num(number) => of_number(*number),
        Term::Var(place) => env[*place],
        Term::Add(a, b) => of_sum(measure_in(a, env), measure_in(b, env)),
        Term::Mul(a, b) => of_product(measure_in(a, env), measure_in(b, env)),
        Term::Div(a, b) => of_sum(measure_in(a, env), measure_in(b, env)),
        Term::Mod(a, b) => of_sum(measure_in(a, env), measure_in(b, env)),
    }
}

fn of_number(number: i128) -> TermMeasure
    ensures value { result ≡ spec.number_measure number }
    ensures capped { IsCapped result }
{
    TermMeasure {
        nodes: 1,
        weight: number.unsigned_abs().max(1).min(WEIGHT_CAP),
        depth: 1,
    }
}

fn of_sum(a: TermMeasure, b: TermMeasure) -> TermMeasure
    requires left { IsCapped a }
    requires right { IsCapped b }
    ensures value { result ≡ spec.sum_measure a b }
    ensures capped { IsCapped result }
{
    TermMeasure {
        nodes: (1 + a.nodes + b.nodes).min(NODE_CAP),
        weight: (a.weight + b.weight).min(WEIGHT_CAP),
        depth: (1 + a.depth.max(b.depth)).min(DEPTH_CAP),
    }
}

fn of_product(a: TermMeasure, b: TermMeasure) -> TermMeasure
    requires left { IsCapped a }
    requires right { IsCapped b }
    ensures value { result ≡ spec.product_measure a b }
    ensures capped { IsCapped result }
{
    let sum = of_sum(a, b);
    TermMeasure {
        nodes: sum.nodes,
        weight: a.weight.saturating_mul(b.weight).min(WEIGHT_CAP),
        depth: sum.depth,
    }
}
