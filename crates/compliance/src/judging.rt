//! The verdict of a threat.
ghost use Rattle.std.specs.Prelude.{◌≡◌, ℕ, IfOk, map};
ghost use Rattle.il_core.specs.Checked.{procedure_of};
ghost use Rattle.sym_simplify.specs.Literal.{literal_form_of};
ghost use Rattle.region_paths.specs.Listing.{RegionPath};
ghost use Rattle.path_inputs.specs.Core as core;
ghost use Rattle.semantic_tables.specs.Hazards.{hazard_of, normal_hazard, IsLeastOf, HasLeast};
ghost use Rattle.compliance.specs.Verdict.{IsFirstLoose, HasVerdict};
ghost use Rattle.compliance.specs.Behind.{IsThreatOf, hazard_from};
ghost use Rattle.compliance.specs.Safe.{IsTold};

use crate::laws::{open_threats_are_loose, threats_are_taken_soon};
use crate::stepping::is_taken;
use crate::threat::{Threat, Verdict};
use il_core::{CheckedProc, Halt, List, NoMemory, Relation};
use semantic_tables::Hazard;
use std::alloc::Global;
use sym_simplify::{LitForm, is_easy, multiple_in};

/// The number of easy `/=` literals in the core.
const CORE: usize = 8;

/// Whether a literal is an easy `/=`.
fn is_disequality(literal: &LitForm) -> bool
    ensures { result ≡ core.is_disequality (literal_form_of literal.now) }
{
    match literal {
        LitForm::Always | LitForm::Never => false,
        LitForm::Keep(kept) => {
            multiple_in(&kept.sum).is_some() && matches!(kept.relation, Relation::Ne)
        }
    }
}

/// The place of the first literal that is hard, or an easy `/=` behind the first eight. There is one.
fn first_loose(literals: &[LitForm]) -> usize
    requires { (i : ℕ) × core.IsLoose (map literal_form_of literals.now) i }
    ensures { IsFirstLoose (map literal_form_of literals.now) result }
{
    let mut count = 0;
    for at in 0..literals.len() {
        if !is_easy(&literals[at]) {
            return at;
        }
        if is_disequality(&literals[at]) {
            if count >= CORE {
                return at;
            }
            count += 1;
        }
    }
    unreachable!()
}

/// The verdict of a threat of the region of line `pc`, whose least input is given; none where it is plainly refuted.
fn verdict_of(
    alloc: Global,
    proc: &CheckedProc,
    pc: usize,
    path: &[bool],
    literals: &[LitForm],
    halt: Halt,
    least: Option<List<i64>>,
) -> Result<Verdict, NoMemory>
    requires threat { IsThreatOf (procedure_of proc.now) pc (hazard_from path.now literals.now halt) }
    requires least { IsLeastOf proc.now.places pc (map literal_form_of literals.now) least }
    ensures { IfOk result (λ v. (r : RegionPath) → hazard_from path.now literals.now halt ≡ normal_hazard r → HasVerdict (procedure_of proc.now) pc r v) }
{
    let input = match least {
        Some(input) => input,
        None => return Ok(Verdict::Refuted),
    };
    if is_taken(alloc, proc, pc, input.as_slice(), path, halt)? {
        return Ok(Verdict::Shown(input));
    }
    threats_are_taken_soon();
    open_threats_are_loose();
    Ok(Verdict::Open(first_loose(literals)))
}

/// The threat that a hazard of the region of line `pc` is, with its verdict.
pub fn judged(
    alloc: Global,
    proc: &CheckedProc,
    pc: usize,
    hazard: Hazard,
) -> Result<Threat, NoMemory>
    requires threat { IsThreatOf (procedure_of proc.now) pc (hazard_of hazard) }
    requires least { HasLeast proc.now.places pc hazard }
    ensures { IfOk result (λ t. (r : RegionPath) → hazard_of hazard ≡ normal_hazard r → IsTold (procedure_of proc.now) pc r t) }
{
    let Hazard {
        path,
        literals,
        halt,
        least,
    } = hazard;
    let verdict = verdict_of(
        alloc,
        proc,
        pc,
        path.as_slice(),
        literals.as_slice(),
        halt,
        least,
    )?;
    Ok(Threat {
        region: pc,
        path,
        literals,
        stop: halt,
        verdict,
    })
}
