//! The state in which a search starts.
ghost use Rattle.std.specs.Prelude.{◌≡◌, ◌<◌, length, replicate, IfOk};
ghost use Rattle.disjoint_paths.specs.declared.widening.Role.TheVariants.{Far};
ghost use Rattle.disjoint_paths.specs.Roles.{ArePlaced};
ghost use Rattle.disjoint_paths.specs.Asked.{IsAsked, IsState};

use crate::widening::{Opened, Origin, Question, Role, Widening};
use il_core::NoMemory;
use std::alloc::Global;

/// The roles of `count` lines, all of which are far.
fn far_roles(alloc: Global, count: usize) -> Result<Vec<Role>, NoMemory>
    ensures { IfOk result (λ roles. roles.items ≡ replicate count Far) }
{
    let mut roles = Vec::with_capacity(alloc, count)?;
    for _line in 0..count {
        roles.push(Role::Far)?;
    }
    Ok(roles)
}

/// The roles of all lines before a line is open.
fn first_roles(alloc: Global, asked: &Question) -> Result<Vec<Role>, NoMemory>
    requires { IsAsked asked.now }
    ensures { IfOk result (λ roles. ArePlaced asked.now.path.now (length asked.now.rows.now) (length asked.now.path.now) roles.items) }
{
    let mut roles = far_roles(alloc, asked.rows.len())?;
    for (place, line) in asked.path.iter().enumerate() {
        roles[*line] = Role::OnPath(place);
    }
    Ok(roles)
}

/// The state in which the tail alone is open.
pub(crate) fn start(alloc: Global, asked: &Question) -> Result<Widening, NoMemory>
    requires { IsAsked asked.now }
    ensures { IfOk result (λ state. IsState asked.now state) }
{
    let mut roles = first_roles(alloc, asked)?;
    roles[asked.tail] = Role::Open;
    let mut opened = Vec::new(alloc);
    opened.push(Opened {
        line: asked.tail,
        origin: Origin::Tail,
        from: 0,
    })?;
    Ok(Widening {
        roles,
        opened,
        start: 0,
    })
}
