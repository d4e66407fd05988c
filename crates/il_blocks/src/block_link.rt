ghost use Rattle.std.specs.Prelude.{◌≡◌, ◌<◌, map, length, slice_get, slice_index, Some, IfOk};
ghost use Rattle.il_core.specs.Statement.{Placed, statement_of, placed};
ghost use Rattle.il_syntax.specs.Order.{IsInOrder};
ghost use Rattle.il_blocks.specs.BlockLabel.{owner};
ghost use Rattle.il_blocks.specs.BlockFault.{HasNoFault};
ghost use Rattle.il_blocks.specs.BlockLink.{is_else, GoesOnAt, IsLink, AreLinks, LinksGive};
ghost use Rattle.il_blocks.specs.BlockTable.{AreTables, SaysAt, OpensAt, MayName};

use crate::block_fault::matched;
use crate::block_label::{begins, found, label_table};
use crate::block_line::{has_line, line_table, return_table};
use crate::block_mate::{Mates, find_mates};
use il_core::{Form, Link, List, Name, NoMemory, Stmt, TextEnd};
use indexmap::IndexMap;
use std::alloc::Global;

/// What the links of statements are read from.
#[derive(Drop)]
struct Tables {
    /// The line of each statement.
    lines: Vec<usize>,
    /// The line of the next ENDPROC at or behind each statement.
    returns: Vec<usize>,
    /// The statements that belong together.
    mates: Mates,
    /// The labels, by procedure and name.
    labels: IndexMap<(usize, Name), usize>,
}

/// Whether the statement numbered `at` is ELSE.
fn is_else(stmts: &[Stmt], at: usize) -> bool
    requires { at < length stmts.now }
    ensures { (s : Placed) → slice_get (map placed stmts.now) at ≡ Some s → result ≡ is_else s.says }
{
    matches!(stmts[at].form, Form::Else)
}

impl Tables {
    /// The line of a statement.
    fn line(&self, at: usize) -> usize
        requires { at < length self.now.lines.items }
        ensures { result ≡ slice_index self.now.lines.items at }
    {
        self.lines[at]
    }

    /// The statement that closes the block which a statement opens.
    fn end(&self, at: usize) -> usize
        requires { at < length self.now.mates.ends.items }
        ensures { result ≡ slice_index self.now.mates.ends.items at }
    {
        self.mates.ends[at]
    }

    /// The LOOP of an EXIT or ENDLOOP.
    fn head(&self, at: usize) -> usize
        requires { at < length self.now.mates.heads.items }
        ensures { result ≡ slice_index self.now.mates.heads.items at }
    {
        self.mates.heads[at]
    }

    /// The line of the next ENDPROC.
    fn procedure_end(&self, at: usize) -> usize
        requires { at < length self.now.returns.items }
        ensures { result ≡ slice_index self.now.returns.items at }
    {
        self.returns[at]
    }

    /// The line at which the IF numbered `at` goes on where it is false.
    fn behind_false(&self, stmts: &[Stmt], at: usize) -> usize
        requires tables { AreTables (map placed stmts.now) self.now }
        requires opens { OpensAt (map placed stmts.now) at }
        ensures { GoesOnAt (map placed stmts.now) at result }
    {
        let end = self.end(at);
        if is_else(stmts, end) {
            self.line(end) + 1
        } else {
            self.line(end)
        }
    }

    /// The line to which the statement numbered `at` of the procedure numbered `inside` may jump, if it names one.
    fn target(&self, stmts: &[Stmt], inside: usize, at: usize, form: &Form) -> Option<usize>
        requires tables { AreTables (map placed stmts.now) self.now }
        requires matched { HasNoFault (map placed stmts.now) }
        requires owner { inside ≡ owner (map placed stmts.now) at }
        requires says { SaysAt (map placed stmts.now) at (statement_of form.now) }
        ensures { MayName (map placed stmts.now) at (statement_of form.now) result }
    {
        match form {
            Form::If(_) => Some(self.behind_false(stmts, at)),
            Form::Else => Some(self.line(self.end(at))),
            Form::EndLoop => Some(self.line(self.head(at))),
            Form::Exit | Form::ExitWhen(_) => Some(self.line(self.end(self.head(at))) + 1),
            Form::Goto(name) => match found(&self.labels, inside, *name) {
                Some(label) => Some(self.line(label)),
                None => None,
            },
            Form::Return => Some(self.procedure_end(at)),
            _ => None,
        }
    }

    /// The link of the statement numbered `at` of the procedure numbered `inside`.
    fn link(&self, stmts: &[Stmt], inside: usize, at: usize, form: &Form) -> Link
        requires tables { AreTables (map placed stmts.now) self.now }
        requires matched { HasNoFault (map placed stmts.now) }
        requires owner { inside ≡ owner (map placed stmts.now) at }
        requires says { SaysAt (map placed stmts.now) at (statement_of form.now) }
        ensures { IsLink (map placed stmts.now) at (statement_of form.now) result }
    {
        if !has_line(form) {
            return Link::NoLine;
        }
        let own = self.line(at);
        match self.target(stmts, inside, at, form) {
            Some(target) => Link::Jump(own, target),
            None => Link::Plain(own),
        }
    }
}

/// The link of each statement.
fn links(alloc: Global, tables: &Tables, stmts: &[Stmt]) -> Result<List<Link>, NoMemory>
    requires tables { AreTables (map placed stmts.now) tables.now }
    requires matched { HasNoFault (map placed stmts.now) }
    ensures { IfOk result (λ links. AreLinks (map placed stmts.now) links) }
{
    let mut links = List::new(alloc);
    let mut inside = 0;
    for (i, stmt) in stmts.iter().enumerate() {
        links.push(tables.link(stmts, inside, i, &stmt.form))?;
        inside += begins(&stmt.form);
    }
    Ok(links)
}

/// The line of each statement within its procedure, counted from 0 at PRE, and the line to which it may jump: one link for
/// each statement of `stmts`, which stand in the order of a text. `NoLine` is a statement that is no line, `Plain` a line
/// that names no other, and `Jump` a line with its target: the line behind the ELSE of an IF, or its ENDIF where it has no
/// ELSE; the ENDIF of an ELSE; the LOOP of an ENDLOOP; the line behind the ENDLOOP of the innermost LOOP around an EXIT; the
/// LABEL of a GOTO; the ENDPROC of a RETURN. `Refused` comes exactly where it comes from `check_blocks`, with the same
/// refusal. It takes time linear in the statements but for the look-ups of labels in a map.
pub fn match_blocks(alloc: Global, stmts: &[Stmt]) -> Result<List<Link>, TextEnd>
    requires { IsInOrder (map placed stmts.now) }
    ensures { LinksGive (map placed stmts.now) result }
{
    let labels = label_table(alloc, stmts)?;
    matched(alloc, &labels, stmts)?;
    let lines = line_table(alloc, stmts)?;
    let returns = return_table(alloc, lines.as_slice(), stmts)?;
    let mates = find_mates(alloc, stmts)?;
    let tables = Tables {
        lines,
        returns,
        mates,
        labels,
    };
    Ok(links(alloc, &tables, stmts)?)
}
