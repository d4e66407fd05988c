//! Sums and products of terms.
use il_core::NoMemory;
use std::alloc::Global;
use sym_terms::Term;

pub fn plus(alloc: Global, a: Term, b: Term) -> Result<Term, NoMemory> {
    Ok(Term::Add(Box::new(alloc, a)?, Box::new(alloc, b)?))
}

pub fn times(alloc: Global, a: Term, b: Term) -> Result<Term, NoMemory> {
    Ok(Term::Mul(Box::new(alloc, a)?, Box::new(alloc, b)?))
}
