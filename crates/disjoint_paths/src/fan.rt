//! The two paths of an open line, as the search found them.
ghost use Rattle.std.specs.Prelude.{◌≡◌, ℕ, ◌+◌, ◌<◌, ◌∷◌, ◌++◌, [], length, IfOk, MatchOption};
ghost use Rattle.disjoint_paths.specs.declared.widening.Origin.TheVariants.{Tail};
ghost use Rattle.disjoint_paths.specs.Widening.{AreOpened, opened_at};
ghost use Rattle.disjoint_paths.specs.Descent.{CameFrom, AreLinked, ComesFromTail, IsFanAt};
ghost use Rattle.disjoint_paths.specs.Asked.{IsAsked, arcs_of, targets_of};

use crate::pair::Pair;
use crate::widening::{Opened, Origin, Question};
use il_core::{List, NoMemory};
use std::alloc::Global;

/// The list of one line.
fn alone(alloc: Global, line: usize) -> Result<List<usize>, NoMemory>
    ensures { IfOk result (λ list. list ≡ line ∷ []) }
{
    let mut list = List::new(alloc);
    list.push(line)?;
    Ok(list)
}

/// Adds all of `lines` at the end of `list`.
pub(crate) fn extend(list: &mut List<usize>, lines: &[usize]) -> Result<(), NoMemory>
    ensures { IfOk result (λ _. list.new ≡ list.old ++ lines.now) }
{
    for line in lines {
        list.push(*line)?;
    }
    Ok(())
}

/// The number of the open line from which a line came to be open; `None` for the tail.
fn before_of(origin: Origin) -> Option<usize>
    ensures { MatchOption result (origin ≡ Tail) (λ b. CameFrom origin b) }
{
    match origin {
        Origin::Tail => None,
        Origin::Step(before) => Some(before),
        Origin::Jump { before, place: _ } => Some(before),
    }
}

/// The numbers of the open lines from that of number `at` back to the tail, which is left out.
fn descent(alloc: Global, opened: &[Opened], at: usize) -> Result<Vec<usize>, NoMemory>
    requires linked { AreLinked opened.now }
    requires known { at < length opened.now }
    ensures { IfOk result (λ numbers. ComesFromTail opened.now numbers.items at) }
{
    let mut numbers = Vec::new(alloc);
    let mut number = at;
    while let Some(before) = before_of(opened[number].origin) {
        numbers.push(number)?;
        number = before;
    }
    Ok(numbers)
}

/// The fan of the open line of this number from that of the open line from which it came to be open.
fn carry(fan: Pair, asked: &Question, opened: &[Opened], number: usize) -> Result<Pair, NoMemory>
    requires asked { IsAsked asked.now }
    requires opened { AreOpened (arcs_of asked.now) (targets_of asked.now) asked.now.tail asked.now.path.now opened.now }
    requires known { number < length opened.now }
    requires fan { (b : ℕ) × CameFrom (opened_at opened.now number).origin b × IsFanAt asked.now opened.now b fan }
    ensures { IfOk result (λ pair. IsFanAt asked.now opened.now number pair) }
{
    let last = opened[number];
    let Pair {
        mut left,
        mut right,
    } = fan;
    match last.origin {
        Origin::Tail => Ok(Pair { left, right }),
        Origin::Step(_) => {
            left.push(last.line)?;
            Ok(Pair { left, right })
        }
        Origin::Jump { before, place } => {
            extend(&mut right, &asked.path[opened[before].from..place + 1])?;
            Ok(Pair {
                left: right,
                right: left,
            })
        }
    }
}

/// A path from the tail to the open line of number `at`, and another from the tail to a line of the first path, as far
/// as that.
pub(crate) fn fan_of(
    alloc: Global,
    asked: &Question,
    opened: &[Opened],
    at: usize,
) -> Result<Pair, NoMemory>
    requires asked { IsAsked asked.now }
    requires opened { AreOpened (arcs_of asked.now) (targets_of asked.now) asked.now.tail asked.now.path.now opened.now }
    requires known { at < length opened.now }
    ensures { IfOk result (λ pair. IsFanAt asked.now opened.now at pair) }
{
    let mut numbers = descent(alloc, opened, at)?;
    let mut fan = Pair {
        left: alone(alloc, asked.tail)?,
        right: alone(alloc, asked.tail)?,
    };
    while let Some(number) = numbers.pop() {
        fan = carry(fan, asked, opened, number)?;
    }
    Ok(fan)
}
