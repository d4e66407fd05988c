//! The running of a plan over the values of an algebra.
ghost use Rattle.std.specs.Prelude.{◌≡◌, ◌+◌, ◌-◌, ◌<◌, ◌≤◌, ◌^◌, ◌⊎◌, ℕ, Some, List, length, slice_get, slice_index, vec_len, IfOk, IsSome};
ghost use Rattle.regular_algebra.specs.Words.{EachNamesLower};
ghost use Rattle.regular_algebra.specs.Answers.{FitsArcs, IsNumberBelow, AnswersBelow, AreAnswers};
ghost use Rattle.regular_algebra.specs.Relations.{ends_of, values_of, AnswersJoin};
ghost use Rattle.regular_algebra.specs.Run.{value_in, Names, StepJoins, AnswerJoins, AreLastUses, AreMade, IsReleased, UsesAreMarked, AnswersAreMarked, EachAnswerJoins, marked, marked_step, marked_answer};

use crate::algebra::Algebra;
use crate::planning::plan;
use crate::steps::{Ends, Entry, Plan, Step};
use il_core::{List, NoMemory};
use std::alloc::Global;

/// For each target, the value that joins exactly what some path from `start` to it joins, by elimination of the nodes
/// of `order`. A value that no later step uses is given up.
///
/// The condition is that of `plan` for the arcs' ends. The only error is want of memory.
pub fn eliminate<A: Algebra>(
    alloc: Global,
    count: usize,
    arcs: &[Entry<A>],
    order: &[usize],
    start: usize,
    targets: &[usize],
) -> Result<List<A>, NoMemory>
    requires { FitsArcs count (ends_of arcs.now) order.now start targets.now }
    ensures { IfOk result (λ values. AnswersJoin A.is_point A.joins arcs.now start targets.now values) }
{
    let ends = all_ends(alloc, arcs)?;
    let plan = plan(alloc, count, ends.as_slice(), order, start, targets)?;
    evaluate(alloc, &plan, arcs)
}

/// The values of a plan's answers over these arcs: whatever start and targets the plan answers for their ends, each value
/// joins exactly what some path from the start to its target joins. So a plan that is made once serves all arcs with the
/// same ends. A value that no later step uses is given up.
///
/// The plan names values of these arcs and of its earlier steps alone, as `plan` answers it. The only error is want of
/// memory.
pub fn evaluate<A: Algebra>(
    alloc: Global,
    plan: &Plan,
    arcs: &[Entry<A>],
) -> Result<List<A>, NoMemory>
    requires lower { EachNamesLower (length arcs.now) plan.now.steps }
    requires below { AnswersBelow (length arcs.now + length plan.now.steps) plan.now.answers }
    ensures { IfOk result (λ values. (start : ℕ) (targets : List ℕ) → AreAnswers (ends_of arcs.now) plan.now.steps start targets plan.now.answers → AnswersJoin A.is_point A.joins arcs.now start targets values) }
{
    let steps = plan.steps.as_slice();
    let answers = plan.answers.as_slice();
    let last = last_uses(alloc, arcs.len(), steps, answers)?;
    let made = run(alloc, arcs, steps, answers, last.as_slice())?;
    let values = hand_out(alloc, arcs, made.as_slice(), answers)?;
    Ok(List::from_vec(values))
}

/// The arcs without their values.
fn all_ends<A: Algebra>(alloc: Global, arcs: &[Entry<A>]) -> Result<Vec<Ends>, NoMemory>
    ensures { IfOk result (λ ends. ends.items ≡ ends_of arcs.now) }
{
    let mut ends = Vec::new(alloc);
    for arc in arcs {
        ends.push(Ends {
            tail: arc.tail,
            head: arc.head,
        })?;
    }
    Ok(ends)
}

/// Marks a use of value `number` at step `at`, where it is the value of a step.
fn mark(last: &mut [usize], first: usize, number: usize, at: usize)
    requires { number < first + length last.old }
    ensures { last.new ≡ marked first number at last.old }
{
    if number >= first {
        last[number - first] = at;
    }
}

/// Marks the uses of a step.
fn mark_step(last: &mut [usize], first: usize, step: Step, at: usize)
    requires { (v : ℕ) → Names step v → v < first + length last.old }
    ensures { last.new ≡ marked_step first step at last.old }
{
    match step {
        Step::Plus(left, right) | Step::Times(left, right) => {
            mark(last, first, left, at);
            mark(last, first, right, at);
        }
        Step::Star(around) => mark(last, first, around, at),
    }
}

/// For each step's value the last step that uses it, or its own step where none does; the number of steps where it
/// answers a target.
fn last_uses(
    alloc: Global,
    first: usize,
    steps: &[Step],
    answers: &[Option<usize>],
) -> Result<Vec<usize>, NoMemory>
    requires lower { EachNamesLower first steps.now }
    requires below { AnswersBelow (first + length steps.now) answers.now }
    ensures { IfOk result (λ last. AreLastUses first steps.now answers.now last.items) }
{
    let mut last = own_steps(alloc, steps.len())?;
    mark_steps(last.as_mut_slice(), first, steps);
    mark_answers(last.as_mut_slice(), first, answers, steps.len());
    Ok(last)
}

/// The numbers below `count`.
fn own_steps(alloc: Global, count: usize) -> Result<Vec<usize>, NoMemory>
    ensures { IfOk result (λ own. vec_len own ≡ count) }
{
    let mut own = Vec::new(alloc);
    for k in 0..count {
        own.push(k)?;
    }
    Ok(own)
}

/// Marks the uses of all steps, in their order.
fn mark_steps(last: &mut [usize], first: usize, steps: &[Step])
    requires lower { EachNamesLower first steps.now }
    requires size { length last.old ≡ length steps.now }
    ensures size { length last.new ≡ length steps.now }
    ensures used { UsesAreMarked first steps.now (length steps.now) last.new }
{
    for (k, step) in steps.iter().enumerate() {
        mark_step(last, first, *step, k);
    }
}

/// Marks the value of an answer.
fn mark_answer(last: &mut [usize], first: usize, answer: Option<usize>, at: usize)
    requires { IsNumberBelow (first + length last.old) answer }
    ensures { last.new ≡ marked_answer first answer at last.old }
{
    if let Some(number) = answer {
        mark(last, first, number, at);
    }
}

/// Marks the values of the answers as used behind all steps.
fn mark_answers(last: &mut [usize], first: usize, answers: &[Option<usize>], count: usize)
    requires below { AnswersBelow (first + length last.old) answers.now }
    ensures size { length last.new ≡ length last.old }
    ensures kept { (k : ℕ) → (slice_index last.new k ≡ slice_index last.old k) ⊎ (slice_index last.new k ≡ count) }
    ensures answered { AnswersAreMarked first answers.now (length answers.now) count last.new }
{
    for answer in answers {
        mark_answer(last, first, *answer, count);
    }
}

/// The value of a number, which is an arc's or is still kept.
fn value_of<'a, A: Algebra>(arcs: &'a [Entry<A>], made: &'a [Option<A>], number: usize) -> &'a A
    requires { IsSome (value_in (values_of arcs.now) made.now number) }
    ensures { value_in (values_of arcs.now) made.now number ≡ Some result.now }
{
    if number < arcs.len() {
        return &arcs[number].value;
    }
    match &made[number - arcs.len()] {
        Some(value) => value,
        None => unreachable!(),
    }
}

/// The value of a step, from the values that it names.
fn step_value<A: Algebra>(
    alloc: Global,
    arcs: &[Entry<A>],
    made: &[Option<A>],
    step: Step,
) -> Result<A, NoMemory>
    requires { (v : ℕ) → Names step v → IsSome (value_in (values_of arcs.now) made.now v) }
    ensures { IfOk result (λ x. StepJoins A.is_point A.joins (value_in (values_of arcs.now) made.now) step x) }
{
    match step {
        Step::Plus(left, right) => {
            let sum = value_of(arcs, made, left).plus(alloc, value_of(arcs, made, right))?;
            Ok(sum)
        }
        Step::Times(left, right) => {
            let product = value_of(arcs, made, left).times(alloc, value_of(arcs, made, right))?;
            Ok(product)
        }
        Step::Star(around) => {
            let star = value_of(arcs, made, around).star(alloc)?;
            Ok(star)
        }
    }
}

/// Gives a step's value up, where this step is the last that uses it.
fn release<A: Algebra>(
    made: &mut Vec<Option<A>>,
    last: &[usize],
    first: usize,
    number: usize,
    at: usize,
)
    requires below { number < first + vec_len made.old }
    requires size { vec_len made.old ≤ length last.now }
    ensures { IsReleased last.now at made.old.items made.new.items }
{
    if number >= first && last[number - first] == at {
        made[number - first] = None;
    }
}

/// Gives up what a step uses last, and its own value where nothing uses it.
fn release_all<A: Algebra>(
    made: &mut Vec<Option<A>>,
    last: &[usize],
    first: usize,
    step: Step,
    at: usize,
)
    requires below { (v : ℕ) → Names step v → v < first + vec_len made.old }
    requires size { vec_len made.old ≤ length last.now }
    requires own { at < vec_len made.old }
    requires fits { first + at < 2 ^ 64 }
    ensures { IsReleased last.now at made.old.items made.new.items }
{
    match step {
        Step::Plus(left, right) | Step::Times(left, right) => {
            release(made, last, first, left, at);
            release(made, last, first, right, at);
        }
        Step::Star(around) => release(made, last, first, around, at),
    }
    release(made, last, first, first + at, at);
}

/// Runs the steps in their order.
fn run<A: Algebra>(
    alloc: Global,
    arcs: &[Entry<A>],
    steps: &[Step],
    answers: &[Option<usize>],
    last: &[usize],
) -> Result<Vec<Option<A>>, NoMemory>
    requires lower { EachNamesLower (length (values_of arcs.now)) steps.now }
    requires last { AreLastUses (length (values_of arcs.now)) steps.now answers.now last.now }
    ensures { IfOk result (λ made. AreMade A.is_point A.joins (values_of arcs.now) steps.now last.now (length steps.now) made.items) }
{
    let mut made = Vec::new(alloc);
    for (k, step) in steps.iter().enumerate() {
        let value = step_value(alloc, arcs, made.as_slice(), *step)?;
        made.push(Some(value))?;
        release_all(&mut made, last, arcs.len(), *step, k);
    }
    Ok(made)
}

/// The value of an answer: zero, or zero plus the value that it names.
fn answer_value<A: Algebra>(
    alloc: Global,
    arcs: &[Entry<A>],
    made: &[Option<A>],
    answer: Option<usize>,
) -> Result<A, NoMemory>
    requires { (v : ℕ) → answer ≡ Some v → IsSome (value_in (values_of arcs.now) made.now v) }
    ensures { IfOk result (λ x. AnswerJoins A.joins (value_in (values_of arcs.now) made.now) answer x) }
{
    let zero = A::zero(alloc)?;
    match answer {
        None => Ok(zero),
        Some(number) => {
            let value = zero.plus(alloc, value_of(arcs, made, number))?;
            Ok(value)
        }
    }
}

/// The values of the answers, in their order.
fn hand_out<A: Algebra>(
    alloc: Global,
    arcs: &[Entry<A>],
    made: &[Option<A>],
    answers: &[Option<usize>],
) -> Result<Vec<A>, NoMemory>
    requires { (k v : ℕ) → slice_get answers.now k ≡ Some (Some v) → IsSome (value_in (values_of arcs.now) made.now v) }
    ensures size { IfOk result (λ xs. vec_len xs ≡ length answers.now) }
    ensures each { IfOk result (λ xs. EachAnswerJoins A.joins (value_in (values_of arcs.now) made.now) answers.now xs.items) }
{
    let mut values = Vec::new(alloc);
    for answer in answers {
        let value = answer_value(alloc, arcs, made, *answer)?;
        values.push(value)?;
    }
    Ok(values)
}
