//! Rows as text: the decisions, the literals, the stop, and each value that is not the place's own. Hazards as text: the
//! decisions, the literals, the halt, and the least input. A test input as text: its values by place.
use crate::regions::Found;
use il_core::{List, Relation};
use semantic_tables::{Hazard, HazardsOr, Row, TableOr};
use std::alloc::{AllocError, Global};
use sym_simplify::{Atom, LitForm, Normal, Part};

/// A normal term all of whose atoms are places; any other atom is a question mark.
fn linear_text(alloc: Global, normal: &Normal) -> Result<String, AllocError> {
    let mut text = String::new(alloc);
    for part in normal.parts.as_slice() {
        let next = match part.atom {
            Atom::Var(place) => format!(in alloc; "{}*v{place} + ", part.coefficient)?,
            _ => format!(in alloc; "{}*? + ", part.coefficient)?,
        };
        text.push_str(next.as_str())?;
    }
    let constant = format!(in alloc; "{}", normal.constant)?;
    text.push_str(constant.as_str())?;
    Ok(text)
}

fn pair_text(
    alloc: Global,
    left: &Normal,
    sign: &str,
    right: &Normal,
) -> Result<String, AllocError> {
    let left = linear_text(alloc, left)?;
    let right = linear_text(alloc, right)?;
    format!(in alloc; "({left} {sign} {right})")
}

fn atom_text(alloc: Global, atom: &Atom) -> Result<String, AllocError> {
    match atom {
        Atom::Var(place) => format!(in alloc; "v{place}"),
        Atom::Mul(left, right) => pair_text(alloc, left, "MUL", right),
        Atom::Div(left, right) => pair_text(alloc, left, "DIV", right),
        Atom::Mod(left, right) => pair_text(alloc, left, "MOD", right),
    }
}

fn part_text(alloc: Global, part: &Part) -> Result<String, AllocError> {
    let atom = atom_text(alloc, &part.atom)?;
    format!(in alloc; "{}*{atom} + ", part.coefficient)
}

fn normal_text(alloc: Global, normal: &Normal) -> Result<String, AllocError> {
    let mut text = String::new(alloc);
    for part in normal.parts.as_slice() {
        text.push_str(part_text(alloc, part)?.as_str())?;
    }
    let constant = format!(in alloc; "{}", normal.constant)?;
    text.push_str(constant.as_str())?;
    Ok(text)
}

fn sign(relation: Relation) -> &'static str {
    match relation {
        Relation::Eq => "=",
        Relation::Ne => "/=",
        Relation::Lt => "<",
        Relation::Le => "<=",
        Relation::Gt => ">",
        Relation::Ge => ">=",
    }
}

fn literal_text(alloc: Global, literal: &LitForm) -> Result<String, AllocError> {
    match literal {
        LitForm::Always => format!(in alloc; "ALWAYS; "),
        LitForm::Never => format!(in alloc; "NEVER; "),
        LitForm::Keep(kept) => {
            let sum = normal_text(alloc, &kept.sum)?;
            let sign = sign(kept.relation);
            format!(in alloc; "{sum} {sign} {}; ", kept.bound)
        }
    }
}

/// Whether a value is the place's own.
fn is_own(value: &Normal, place: usize) -> bool {
    match value.parts.as_slice() {
        [only] => {
            value.constant == 0
                && only.coefficient == 1
                && match only.atom {
                    Atom::Var(var) => var == place,
                    _ => false,
                }
        }
        _ => false,
    }
}

fn path_text(alloc: Global, path: &[bool]) -> Result<String, AllocError> {
    let mut text = String::new(alloc);
    for decision in path {
        text.push_str(if *decision { "T" } else { "F" })?;
    }
    Ok(text)
}

fn literals_text(alloc: Global, literals: &[LitForm]) -> Result<String, AllocError> {
    let mut text = String::new(alloc);
    for literal in literals {
        text.push_str(literal_text(alloc, literal)?.as_str())?;
    }
    Ok(text)
}

fn values_text(alloc: Global, values: &[Normal]) -> Result<String, AllocError> {
    let mut text = String::new(alloc);
    for (place, value) in values.iter().enumerate() {
        if !is_own(value, place) {
            let value = normal_text(alloc, value)?;
            let next = format!(in alloc; "; v{place} := {value}")?;
            text.push_str(next.as_str())?;
        }
    }
    Ok(text)
}

fn row_text(alloc: Global, row: &Row) -> Result<String, AllocError> {
    let path = path_text(alloc, row.path.as_slice())?;
    let literals = literals_text(alloc, row.literals.as_slice())?;
    let values = values_text(alloc, row.values.as_slice())?;
    format!(in alloc; "{path}: {literals}{:?}{values}", row.stop)
}

fn rows_text(alloc: Global, rows: &List<Row>) -> Result<String, AllocError> {
    let mut text = String::new(alloc);
    for row in rows.as_slice() {
        text.push_str(row_text(alloc, row)?.as_str())?;
        text.push_str("\n")?;
    }
    Ok(text)
}

/// The values of a least input, or a word where there is none.
fn least_text(alloc: Global, least: &Option<List<i64>>, none: &str) -> Result<String, AllocError> {
    match least {
        Some(input) => {
            let mut text = format!(in alloc; "LEAST")?;
            for value in input.as_slice() {
                let value = format!(in alloc; " {value}")?;
                text.push_str(value.as_str())?;
            }
            Ok(text)
        }
        None => String::from_str(alloc, none),
    }
}

fn hazard_text(alloc: Global, hazard: &Hazard) -> Result<String, AllocError> {
    let path = path_text(alloc, hazard.path.as_slice())?;
    let literals = literals_text(alloc, hazard.literals.as_slice())?;
    let least = least_text(alloc, &hazard.least, "REFUTED")?;
    format!(in alloc; "{path}: {literals}{:?}; {least}", hazard.halt)
}

fn hazards_text(alloc: Global, hazards: &HazardsOr) -> Result<String, AllocError> {
    match hazards {
        HazardsOr::Hazards(list) => {
            let mut text = String::new(alloc);
            for hazard in list.as_slice() {
                text.push_str(hazard_text(alloc, hazard)?.as_str())?;
                text.push_str("\n")?;
            }
            Ok(text)
        }
        HazardsOr::Past(limit) => format!(in alloc; "PAST {limit:?}\n"),
    }
}

fn inputs_text(alloc: Global, inputs: &[Option<List<i64>>]) -> Result<String, AllocError> {
    let mut text = String::new(alloc);
    for input in inputs {
        text.push_str(least_text(alloc, input, "NONE")?.as_str())?;
        text.push_str("\n")?;
    }
    Ok(text)
}

fn table_text(alloc: Global, table: &TableOr) -> Result<String, AllocError> {
    match table {
        TableOr::Table(rows) => rows_text(alloc, rows),
        TableOr::Past(limit) => format!(in alloc; "PAST {limit:?}\n"),
    }
}

/// A line for each row, test input or hazard of a region, or the limit that it passes.
pub fn found_text(alloc: Global, found: &Found) -> Result<String, AllocError> {
    match found {
        Found::Rows(table) => table_text(alloc, table),
        Found::Inputs(Some(inputs)) => inputs_text(alloc, inputs.as_slice()),
        Found::Inputs(None) => format!(in alloc; "PAST\n"),
        Found::Hazards(hazards) => hazards_text(alloc, hazards),
    }
}
