//! The text of normal terms and of forms of literals, and the pieces of which every text of the suite is made. A normal
//! term is written part by part, each with its sign, its coefficient and its atom, and the constant at the end; a form of
//! a literal by its parts, its relation and its number. A call sends the pieces to a sink one after the other. It takes
//! no memory, costs time linear in the text, leaves what is settled as it was, and after a fault of the sink has written
//! a prefix of the text.
#![tactic(auto)]

mod forms;
mod pieces;
mod places;

pub use forms::{is_place, put_literal, put_normal};
pub use pieces::put;
pub use places::{place_name, put_place};
