//! Normal terms all of whose atoms are places.
ghost use Rattle.std.specs.Prelude.{◌≡◌, ◌<◌, length, IfOk};
ghost use Rattle.std.specs.Option.{option_map};
ghost use Rattle.sym_simplify.specs.Table.{form_at};
ghost use Rattle.sym_simplify.specs.Linear.{linear_in, linear_of};

use crate::{FormAtom, FormId, FormNode, FormTable, LinearPart, LinearTerm};
use il_core::{List, NoMemory};

impl FormTable {
    /// The constant and the places of a normal term; `None` exactly where it has another atom.
    pub fn linear(&self, id: FormId) -> Result<Option<LinearTerm>, NoMemory>
        requires { id.index < length self.now }
        ensures { IfOk result (λ o. option_map linear_in o ≡ linear_of (form_at self.now id)) }
    {
        let mut parts = List::new(self.allocator());
        let mut at = id;
        'tail: loop {
            match self.node(at) {
                FormNode::Constant(constant) => return Ok(Some(LinearTerm { constant, parts })),
                FormNode::More(part, next) => {
                    let FormAtom::Var(place) = part.atom else {
                        return Ok(None);
                    };
                    let coefficient = part.coefficient;
                    parts.push(LinearPart { coefficient, place })?;
                    at = next;
                }
            }
        }
    }
}
