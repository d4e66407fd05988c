//! The walk down the tree of a region, over the nodes of the lowered graph: decision by decision, true first.
ghost use Rattle.std.specs.Prelude.{◌≡◌, ◌∷◌, ◌++◌, true, false, [], All, IfOk, MatchBool, MatchOption, length, map};
ghost use Rattle.il_core.specs.declared.line.Stop.{Stop};
ghost use Rattle.il_core.specs.declared.line.Stop.TheVariants.{Halted};
ghost use Rattle.il_core.specs.Run.{is_bad};
ghost use Rattle.sym_terms.specs.Grown.{Keeps};
ghost use Rattle.sym_terms.specs.Nodes.{terms_of};
ghost use Rattle.sym_simplify.specs.Literal.{literal_form_of};
ghost use Rattle.sym_simplify.specs.Easy.{IsKept};
ghost use Rattle.sym_simplify.specs.Places.{HasLiteralPlacesBelow};
ghost use Rattle.test_graph.specs.Decision.{Decision};
ghost use Rattle.test_graph.specs.Lowered.{Unfolds};
ghost use Rattle.region_paths.specs.PathTree.{PathTree, paths_down, stops};
ghost use Rattle.semantic_tables.specs.Row.{row_of, comparison_form};
ghost use Rattle.semantic_tables.specs.Fit.{HasSoundLiterals};
ghost use Rattle.semantic_tables.specs.Hazards.{stops_badly, hazard_of, HasLeast};
ghost use Rattle.semantic_tables.specs.Walk.{IsExploration, IsSegment, tree_from, Stands, IsEnvironment, IsPrefix, IsSamePrefix, IsKnown, prefix_forms, comparison_at, AreSides, LeftOut, ended, bad_hazards, AreSound, Adds};

use crate::environment::{exchange, put_under, sides_under};
use crate::exploration::Exploration;
use crate::hazard::Hazard;
use crate::prefix::{Prefix, Sides, hazard_at, row_at};
use crate::refuting::least_of;
use crate::row::Row;
use crate::segment::{Onward, Segment, go_on};
use il_core::{Halt, List, NoMemory, Stop};
use path_inputs::refuted_stays_refuted;
use sym_simplify::Forms;
use sym_terms::TermId;
use test_graph::TestNode;

/// What a walk has found.
#[derive(Drop)]
pub struct Found {
    /// The rows, where a table or long rows are asked for.
    pub rows: List<Row>,
    /// The hazards, where these are.
    pub hazards: List<Hazard>,
}

/// One side of a decision.
#[derive(Clone, Copy)]
struct Branch {
    /// Its node.
    to: usize,
    /// Whether the literal is met there.
    met: bool,
    /// The literal that holds there.
    sides: Sides,
}

/// Whether the walk goes on below a prefix: a table gives up all paths below one that is plainly refuted.
pub fn is_open(exploration: Exploration<'_>, prefix: &mut Prefix) -> Result<bool, NoMemory>
    requires below { All (λ l. HasLiteralPlacesBelow (length exploration.proc.now.places) (literal_form_of l)) prefix.old.literals.items }
    requires kept { All (λ l. IsKept (literal_form_of l)) prefix.old.literals.items }
    requires known { IsKnown exploration prefix.old }
    ensures kept { IfOk result (λ kept. MatchBool kept (LeftOut exploration.entry (prefix_forms prefix.old) → ⊥) (LeftOut exploration.entry (prefix_forms prefix.old))) }
    ensures known { IfOk result (λ _. IsKnown exploration.entry prefix.new) }
    ensures same { IsSamePrefix prefix.old prefix.new }
{
    if exploration.query.is_long() {
        return Ok(true);
    }
    let least = least_of(exploration, prefix)?;
    Ok(least.is_some())
}

/// The halt of a path that stops at a fault, a failed assertion or outside the postcondition.
fn bad_halt(stop: Stop) -> Option<Halt>
    ensures { MatchOption result (stops_badly stop ≡ false) (λ h. (stop ≡ Halted h) × (is_bad h ≡ true)) }
{
    match stop {
        Stop::Head(_) | Stop::Halted(Halt::End | Halt::Outside) => None,
        Stop::Halted(
            halt @ (Halt::FailedAssert(_) | Halt::FailedPost | Halt::DivZero(_) | Halt::Range(_)),
        ) => Some(halt),
    }
}

/// Adds the hazard of a path that ends here, if it stops badly.
fn push_hazard(
    exploration: Exploration<'_>,
    stop: Stop,
    forms: &mut Forms,
    prefix: &mut Prefix,
    hazards: &mut List<Hazard>,
) -> Result<(), NoMemory>
    requires prefix { IsPrefix (length exploration.proc.now.places) forms.old.terms prefix.old }
    requires known { IsKnown exploration prefix.old }
    requires least { All (HasLeast exploration.proc.now.places exploration.line) hazards.old }
    ensures adds { IfOk result (λ _. map hazard_of hazards.new ≡ map hazard_of hazards.old ++ bad_hazards (ended prefix.old.path.items (prefix_forms prefix.old) stop [])) }
    ensures known { IfOk result (λ _. IsKnown exploration.entry prefix.new) }
    ensures same { IsSamePrefix prefix.old prefix.new }
    ensures least { IfOk result (λ _. All (HasLeast exploration.entry.proc.now.places exploration.entry.line) hazards.new) }
    ensures terms { forms.new.terms ≡ forms.old.terms }
{
    let halt = match bad_halt(stop) {
        Some(halt) => halt,
        None => return Ok(()),
    };
    let least = least_of(exploration, prefix)?;
    hazards.push(hazard_at(exploration, forms, prefix, halt, least)?)
}

/// Adds the row of a path that ends here.
fn push_row(
    exploration: Exploration<'_>,
    stop: Stop,
    forms: &mut Forms,
    env: &[TermId],
    prefix: &Prefix,
    rows: &mut List<Row>,
) -> Result<(), NoMemory>
    requires env { IsEnvironment (length exploration.proc.now.places) forms.old.terms env.now }
    requires prefix { IsPrefix (length exploration.proc.now.places) forms.old.terms prefix.now }
    requires sound { All (HasSoundLiterals (length exploration.proc.now.places)) rows.old }
    ensures adds { IfOk result (λ _. map row_of rows.new ≡ map row_of rows.old ++ ended prefix.now.path.items (prefix_forms prefix.now) stop (terms_of forms.old.terms env.now) ∷ []) }
    ensures sound { IfOk result (λ _. All (HasSoundLiterals (length exploration.entry.proc.now.places)) rows.new) }
    ensures terms { forms.new.terms ≡ forms.old.terms }
{
    rows.push(row_at(exploration.alloc, forms, env, prefix, stop)?)
}

/// Adds what is asked for of a path that ends here.
fn push_found(
    exploration: Exploration<'_>,
    stop: Stop,
    forms: &mut Forms,
    env: &[TermId],
    prefix: &mut Prefix,
    found: &mut Found,
) -> Result<(), NoMemory>
    requires env { IsEnvironment (length exploration.proc.now.places) forms.old.terms env.now }
    requires prefix { IsPrefix (length exploration.proc.now.places) forms.old.terms prefix.old }
    requires known { IsKnown exploration prefix.old }
    requires some { LeftOut exploration (prefix_forms prefix.old) → ⊥ }
    requires sound { AreSound exploration found.old }
    ensures adds { IfOk result (λ _. Adds (LeftOut exploration.entry) exploration.entry.query prefix.old.path.items (prefix_forms prefix.old) (paths_down (stops stop) (terms_of forms.old.terms env.now)) found.old found.new) }
    ensures known { IfOk result (λ _. IsKnown exploration.entry prefix.new) }
    ensures same { IsSamePrefix prefix.old prefix.new }
    ensures sound { IfOk result (λ _. AreSound exploration.entry found.new) }
    ensures terms { forms.new.terms ≡ forms.old.terms }
{
    if exploration.query.is_hazards() {
        push_hazard(exploration, stop, forms, prefix, &mut found.hazards)
    } else {
        push_row(exploration, stop, forms, env, prefix, &mut found.rows)
    }
}

/// Adds what is asked for on one side of a decision, unless its literals are left out.
#[cycle(walking)]
fn walk_side(
    exploration: Exploration<'_>,
    branch: Branch,
    segment: Segment,
    forms: &mut Forms,
    env: &mut [TermId],
    prefix: &mut Prefix,
    found: &mut Found,
) -> Result<(), NoMemory>
    requires exploration { IsExploration exploration }
    requires segment { IsSegment exploration.loops.now segment }
    requires stands { Stands exploration branch.to segment (terms_of forms.old.terms env.old) }
    requires env { IsEnvironment (length exploration.proc.now.places) forms.old.terms env.old }
    requires sides { AreSides (length exploration.proc.now.places) forms.old.terms branch.sides }
    requires prefix { IsPrefix (length exploration.proc.now.places) forms.old.terms prefix.old }
    requires known { IsKnown exploration prefix.old }
    requires sound { AreSound exploration found.old }
    ensures adds { IfOk result (λ _. (d : Decision) → Unfolds exploration.entry.graph.now.nodes exploration.entry.graph.now.entries branch.to d → Adds (LeftOut exploration.entry) exploration.entry.query (prefix.old.path.items ++ branch.met ∷ []) (prefix_forms prefix.old ++ comparison_form (comparison_at forms.old.terms branch.sides) ∷ []) (paths_down (tree_from exploration.entry segment d) (terms_of forms.old.terms env.old)) found.old found.new) }
    ensures kept { Keeps forms.old.terms forms.new.terms }
    ensures env { IfOk result (λ _. env.new ≡ env.old) }
    ensures known { IfOk result (λ _. IsKnown exploration.entry prefix.new) }
    ensures same { IfOk result (λ _. IsSamePrefix prefix.old prefix.new) }
    ensures sound { IfOk result (λ _. AreSound exploration.entry found.new) }
{
    refuted_stays_refuted();
    prefix.add(forms, branch.met, branch.sides)?;
    if is_open(exploration, prefix)? {
        walk(exploration, branch.to, segment, forms, env, prefix, found)?;
    }
    prefix.turn_back();
    Ok(())
}

/// Adds what is asked for of the paths from node `id` on, behind the decisions so far, true first.
#[cycle(walking)]
pub fn walk(
    exploration: Exploration<'_>,
    id: usize,
    segment: Segment,
    forms: &mut Forms,
    env: &mut [TermId],
    prefix: &mut Prefix,
    found: &mut Found,
) -> Result<(), NoMemory>
    requires exploration { IsExploration exploration }
    requires segment { IsSegment exploration.loops.now segment }
    requires stands { Stands exploration id segment (terms_of forms.old.terms env.old) }
    requires env { IsEnvironment (length exploration.proc.now.places) forms.old.terms env.old }
    requires prefix { IsPrefix (length exploration.proc.now.places) forms.old.terms prefix.old }
    requires known { IsKnown exploration prefix.old }
    requires some { LeftOut exploration (prefix_forms prefix.old) → ⊥ }
    requires sound { AreSound exploration found.old }
    ensures adds { IfOk result (λ _. (d : Decision) → Unfolds exploration.entry.graph.now.nodes exploration.entry.graph.now.entries id d → Adds (LeftOut exploration.entry) exploration.entry.query prefix.old.path.items (prefix_forms prefix.old) (paths_down (tree_from exploration.entry segment d) (terms_of forms.old.terms env.old)) found.old found.new) }
    ensures kept { Keeps forms.old.terms forms.new.terms }
    ensures env { IfOk result (λ _. env.new ≡ env.old) }
    ensures known { IfOk result (λ _. IsKnown exploration.entry prefix.new) }
    ensures same { IfOk result (λ _. IsSamePrefix prefix.old prefix.new) }
    ensures sound { IfOk result (λ _. AreSound exploration.entry found.new) }
{
    match exploration.graph.nodes.get(id) {
        Some(TestNode::Test(literal, met, unmet)) => {
            let sides = sides_under(forms, env, literal)?;
            let branch = Branch {
                to: *met,
                met: true,
                sides,
            };
            walk_side(exploration, branch, segment, forms, env, prefix, found)?;
            let other = Branch {
                to: *unmet,
                met: false,
                sides: sides.denied(),
            };
            walk_side(exploration, other, segment, forms, env, prefix, found)
        }
        Some(TestNode::Assign(place, term, then)) => {
            let value = put_under(forms, env, term)?;
            let was = exchange(env, *place, value);
            walk(exploration, *then, segment, forms, env, prefix, found)?;
            exchange(env, *place, was);
            Ok(())
        }
        Some(TestNode::AtLine(line, first)) => match go_on(exploration, *line, *first, segment) {
            Onward::On(to, next) => walk(exploration, to, next, forms, env, prefix, found),
            Onward::Stops(stop) => push_found(exploration, stop, forms, env, prefix, found),
        },
        Some(TestNode::Stop(halt)) => {
            let stop = Stop::Halted(*halt);
            push_found(exploration, stop, forms, env, prefix, found)
        }
        None => unreachable!(),
    }
}
