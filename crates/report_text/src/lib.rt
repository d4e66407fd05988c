//! The text of what the suite answers. The text of a report is a head, a part for each procedure and an end, which is a
//! line with the status: [`put_head`], [`put_part`] and [`put_end`] write them, and [`put`] writes them all. A part has
//! its name and its calls, and the sections that are selected: the control structure with the reduction by intervals, the use of variables, the flow
//! of information, the slices, the paths, the tables of the regions, the test inputs of their rows, the threats with
//! their verdicts, and the certificates. [`put_refusal`] writes the one line of a refused text, and [`put_words`] the one
//! line that answers words that are not understood. Each text is a definition of its own, a list of bytes made of pieces:
//! fixed words, names, and numbers by their decimal text. The certificates are written in the very lines in which they
//! are read. A call sends the pieces to a sink one after the other. It takes no memory, costs time linear in what it is
//! given and in the text, leaves what is settled as it was, and after a fault of the sink has written a prefix of the
//! text.
#![tactic(auto)]

mod calls;
mod cert_lines;
mod certificates;
mod control;
mod flows;
mod head;
mod inputs;
mod lists;
mod part;
mod paths;
mod refusal;
mod sections;
mod slices;
mod stops;
mod tables;
mod threats;
mod usage;
mod whole;

pub use head::{put_end, put_head};
pub use part::put_part;
pub use refusal::{put_refusal, put_words};
pub use request::Selection;
pub use whole::put;
