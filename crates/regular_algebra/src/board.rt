//! The board of an elimination: for each node a row of the values that lead from it, and the nodes that lead to it.
//!
//! Only entries that have a value take memory, and an eliminated node is marked: what stands in its row and column counts no
//! more.
ghost use Rattle.std.specs.Prelude.{◌≡◌, ◌<◌, [], replicate, vec_len, IfOk};
ghost use Rattle.regular_algebra.specs.Rows.{IsNoted};

use crate::row::Row;
use crate::steps::{Ends, Step};
use il_core::{List, NoMemory};
use std::alloc::Global;

/// The rows of `count` nodes, the nodes that may lead to each of them, which of the nodes are gone, and the steps so far.
/// Values are numbered from `first`, behind the arcs.
#[derive(Drop)]
pub struct Board {
    count: usize,
    first: usize,
    rows: Vec<Row>,
    columns: Vec<List<usize>>,
    gone: Vec<bool>,
    steps: Vec<Step>,
    ghost has_rows: { vec_len rows ≡ count },
    ghost has_columns: { vec_len columns ≡ count },
    ghost has_marks: { vec_len gone ≡ count },
    ghost noted: { IsNoted rows.items columns.items },
}

/// Rows without values.
fn empty_rows(alloc: Global, count: usize) -> Result<Vec<Row>, NoMemory>
    ensures { IfOk result (λ rows. rows.items ≡ replicate count []) }
{
    let mut rows = Vec::with_capacity(alloc, count)?;
    for _row in 0..count {
        rows.push(Row::new(alloc))?;
    }
    Ok(rows)
}

/// Columns without nodes.
fn empty_columns(alloc: Global, count: usize) -> Result<Vec<List<usize>>, NoMemory>
    ensures { IfOk result (λ columns. columns.items ≡ replicate count []) }
{
    let mut columns = Vec::with_capacity(alloc, count)?;
    for _column in 0..count {
        columns.push(List::new(alloc))?;
    }
    Ok(columns)
}

impl Board {
    ghost use Rattle.std.specs.Prelude.{◌≡◌, ℕ, ◌<◌, Some, false, true, length, map, not, slice_index_or, IfOk, OnOk};
    ghost use Rattle.std.specs.List.{fold};
    ghost use Rattle.regular_algebra.specs.Rows.{has_node};
    ghost use Rattle.regular_algebra.specs.Paths.{IsArc};
    ghost use Rattle.regular_algebra.specs.Answers.{AreBelow};
    ghost use Rattle.regular_algebra.specs.Rule.{blank, next, made, put, joined, multiplied, through, turn, row, rows, passed, cleared, eliminated, entered, finished};
    ghost use Rattle.regular_algebra.specs.Cells.{table_of, is_gone, IsListed, SameSize};

    /// A board without values.
    fn new(alloc: Global, count: usize, first: usize) -> Result<Board, NoMemory>
        ensures table { IfOk result (λ b. table_of b ≡ blank) }
        ensures count { IfOk result (λ b. b.count ≡ count) }
        ensures first { IfOk result (λ b. b.first ≡ first) }
        ensures live { IfOk result (λ b. (k : ℕ) → k < count → is_gone b.gone.items k ≡ false) }
    {
        let rows = empty_rows(alloc, count)?;
        let columns = empty_columns(alloc, count)?;
        let gone = vec![in alloc; false; count]?;
        Ok(Board {
            count,
            first,
            rows,
            columns,
            gone,
            steps: Vec::new(alloc),
        })
    }

    /// Whether a node is on the board and not gone.
    fn is_live(&self, node: usize) -> bool
        ensures { result ≡ not (is_gone self.now.gone.items node) }
    {
        node < self.count && !self.gone[node]
    }

    /// The number of the value of entry (i, j).
    fn entry(&self, i: usize, j: usize) -> Option<usize>
        ensures { result ≡ (table_of self.now).entry i j }
    {
        if self.is_live(i) && self.is_live(j) {
            self.rows[i].value_to(j)
        } else {
            None
        }
    }

    /// Notes that i leads to j.
    fn note(&mut self, i: usize, j: usize) -> Result<(), NoMemory>
        requires { j < self.old.count }
        ensures table { OnOk result (table_of self.new ≡ table_of self.old) }
        ensures noted { OnOk result (has_node (slice_index_or self.new.columns.items j []) i ≡ true) }
        ensures gone { OnOk result (self.new.gone.items ≡ self.old.gone.items) }
        ensures sized { OnOk result (SameSize self.old self.new) }
    {
        self.columns[j].push(i)?;
        Ok(())
    }

    /// Gives entry (i, j) another value, where it is noted that i leads to j.
    fn put(&mut self, i: usize, j: usize, value: usize) -> Result<(), NoMemory>
        requires row { is_gone self.old.gone.items i ≡ false }
        requires column { is_gone self.old.gone.items j ≡ false }
        requires noted { has_node (slice_index_or self.old.columns.items j []) i ≡ true }
        ensures table { OnOk result (table_of self.new ≡ put i j (Some value) (table_of self.old)) }
        ensures gone { OnOk result (self.new.gone.items ≡ self.old.gone.items) }
        ensures sized { OnOk result (SameSize self.old self.new) }
    {
        self.rows[i].set(j, value)?;
        Ok(())
    }

    /// Adds a step, and answers the number of its value.
    #[tactic(auto, unfolding(crate::specs::Rule::made, crate::specs::Cells::table_of))]
    fn make(&mut self, step: Step) -> Result<usize, NoMemory>
        ensures table { OnOk result (table_of self.new ≡ made step (table_of self.old)) }
        ensures number { IfOk result (λ v. v ≡ next self.old.first (table_of self.old)) }
        ensures gone { OnOk result (self.new.gone.items ≡ self.old.gone.items) }
        ensures sized { OnOk result (SameSize self.old self.new) }
    {
        let number = self.first.checked_add(self.steps.len()).ok_or(NoMemory)?;
        self.steps.push(step)?;
        Ok(number)
    }

    /// Brings a value to entry (i, j): alone, or in a sum with the value that is there.
    fn join(&mut self, i: usize, j: usize, value: usize) -> Result<(), NoMemory>
        requires row { is_gone self.old.gone.items i ≡ false }
        requires column { is_gone self.old.gone.items j ≡ false }
        ensures table { OnOk result (table_of self.new ≡ joined self.old.first i j value (table_of self.old)) }
        ensures gone { OnOk result (self.new.gone.items ≡ self.old.gone.items) }
        ensures sized { OnOk result (SameSize self.old self.new) }
    {
        match self.entry(i, j) {
            None => {
                self.note(i, j)?;
                self.put(i, j, value)?;
                Ok(())
            }
            Some(other) => {
                let sum = self.make(Step::Plus(other, value))?;
                self.put(i, j, sum)?;
                Ok(())
            }
        }
    }

    /// Brings the product of two values to entry (i, j).
    fn multiply(&mut self, i: usize, j: usize, left: usize, right: usize) -> Result<(), NoMemory>
        requires row { is_gone self.old.gone.items i ≡ false }
        requires column { is_gone self.old.gone.items j ≡ false }
        ensures table { OnOk result (table_of self.new ≡ multiplied self.old.first i j left right (table_of self.old)) }
        ensures sized { OnOk result (SameSize self.old self.new) }
    {
        let product = self.make(Step::Times(left, right))?;
        self.join(i, j, product)?;
        Ok(())
    }

    /// Brings the product of two values to entry (i, j), with the star between them where there is one.
    fn multiply_through(
        &mut self,
        i: usize,
        j: usize,
        left: usize,
        star: Option<usize>,
        right: usize,
    ) -> Result<(), NoMemory>
        requires row { is_gone self.old.gone.items i ≡ false }
        requires column { is_gone self.old.gone.items j ≡ false }
        ensures table { OnOk result (table_of self.new ≡ through self.old.first i j left star right (table_of self.old)) }
        ensures sized { OnOk result (SameSize self.old self.new) }
    {
        match star {
            None => {
                self.multiply(i, j, left, right)?;
                Ok(())
            }
            Some(star) => {
                let turned = self.make(Step::Times(left, star))?;
                self.multiply(i, j, turned, right)?;
                Ok(())
            }
        }
    }

    /// Brings what goes from i to j through p to entry (i, j), where i and j are other nodes than p.
    fn turn(&mut self, p: usize, star: Option<usize>, i: usize, j: usize) -> Result<(), NoMemory>
        ensures table { OnOk result (table_of self.new ≡ turn self.old.first p star i j (table_of self.old)) }
        ensures sized { OnOk result (SameSize self.old self.new) }
    {
        if i == p || j == p {
            return Ok(());
        }
        let Some(left) = self.entry(i, p) else {
            return Ok(());
        };
        let Some(right) = self.entry(p, j) else {
            return Ok(());
        };
        self.multiply_through(i, j, left, star, right)?;
        Ok(())
    }

    /// The turns from node i to every node, of which p leads to those of `leaving` alone. A node that does not enter p is
    /// skipped.
    fn turn_row(
        &mut self,
        p: usize,
        star: Option<usize>,
        i: usize,
        leaving: &[usize],
    ) -> Result<(), NoMemory>
        requires { IsListed (λ j. (table_of self.old).entry p j) leaving.now }
        ensures table { OnOk result (table_of self.new ≡ row self.old.first p star i self.old.count (table_of self.old)) }
        ensures sized { OnOk result (SameSize self.old self.new) }
    {
        if self.entry(i, p).is_none() {
            return Ok(());
        }
        for j in leaving {
            self.turn(p, star, i, *j)?;
        }
        Ok(())
    }

    /// The turns from every node, of which those of `entering` alone lead to p.
    fn turn_rows(
        &mut self,
        p: usize,
        star: Option<usize>,
        entering: &[usize],
        leaving: &[usize],
    ) -> Result<(), NoMemory>
        requires entering { IsListed (λ i. (table_of self.old).entry i p) entering.now }
        requires leaving { IsListed (λ j. (table_of self.old).entry p j) leaving.now }
        ensures table { OnOk result (table_of self.new ≡ rows self.old.first p star self.old.count self.old.count (table_of self.old)) }
        ensures sized { OnOk result (SameSize self.old self.new) }
    {
        for i in entering {
            self.turn_row(p, star, *i, leaving)?;
        }
        Ok(())
    }

    /// The nodes that lead to p, in their order.
    fn entering(&self, alloc: Global, p: usize) -> Result<Vec<usize>, NoMemory>
        requires { p < self.now.count }
        ensures { IfOk result (λ nodes. IsListed (λ i. (table_of self.now).entry i p) nodes.items) }
    {
        let mut nodes = Vec::from_slice(alloc, self.columns[p].as_slice())?;
        nodes.sort_unstable();
        nodes.dedup();
        Ok(nodes)
    }

    /// The nodes that p leads to, in their order.
    fn leaving(&self, alloc: Global, p: usize) -> Result<Vec<usize>, NoMemory>
        requires { p < self.now.count }
        ensures { IfOk result (λ nodes. IsListed (λ j. (table_of self.now).entry p j) nodes.items) }
    {
        let mut nodes = Vec::new(alloc);
        for item in self.rows[p].items() {
            if self.is_live(item.node) {
                nodes.push(item.node)?;
            }
        }
        Ok(nodes)
    }

    /// Makes the star of p, where it has a loop, and all turns through p.
    fn pass(&mut self, alloc: Global, p: usize) -> Result<(), NoMemory>
        requires { p < self.old.count }
        ensures table { OnOk result (table_of self.new ≡ passed self.old.first self.old.count p (table_of self.old)) }
        ensures sized { OnOk result (SameSize self.old self.new) }
    {
        let entering = self.entering(alloc, p)?;
        let leaving = self.leaving(alloc, p)?;
        match self.entry(p, p) {
            None => {
                self.turn_rows(p, None, entering.as_slice(), leaving.as_slice())?;
                Ok(())
            }
            Some(around) => {
                let star = self.make(Step::Star(around))?;
                self.turn_rows(p, Some(star), entering.as_slice(), leaving.as_slice())?;
                Ok(())
            }
        }
    }

    /// Takes the values of the row and the column of p away.
    fn clear(&mut self, p: usize)
        requires { p < self.old.count }
        ensures table { table_of self.new ≡ cleared p (table_of self.old) }
        ensures sized { SameSize self.old self.new }
    {
        self.gone[p] = true;
    }

    /// Eliminates node p.
    fn eliminate_node(&mut self, alloc: Global, p: usize) -> Result<(), NoMemory>
        requires { p < self.old.count }
        ensures table { OnOk result (table_of self.new ≡ eliminated self.old.first self.old.count (table_of self.old) p) }
        ensures sized { OnOk result (SameSize self.old self.new) }
    {
        self.pass(alloc, p)?;
        self.clear(p);
        Ok(())
    }

    /// Enters the arcs in their order, the first of which has the number 0.
    fn enter_all(&mut self, arcs: &[Ends]) -> Result<(), NoMemory>
        requires below { (k i j : ℕ) → IsArc arcs.now k i j → (i < self.old.count) × (j < self.old.count) }
        requires live { (k : ℕ) → k < self.old.count → is_gone self.old.gone.items k ≡ false }
        requires first { self.old.first ≡ length arcs.now }
        requires blank { table_of self.old ≡ blank }
        ensures table { OnOk result (table_of self.new ≡ entered arcs.now (length arcs.now)) }
        ensures sized { OnOk result (SameSize self.old self.new) }
    {
        for (k, arc) in arcs.iter().enumerate() {
            self.join(arc.tail, arc.head, k)?;
        }
        Ok(())
    }

    /// Eliminates the nodes of `order`, one after the other.
    fn eliminate_all(&mut self, alloc: Global, order: &[usize]) -> Result<(), NoMemory>
        requires { AreBelow self.old.count order.now }
        ensures table { OnOk result (table_of self.new ≡ fold (eliminated self.old.first self.old.count) (table_of self.old) order.now) }
        ensures sized { OnOk result (SameSize self.old self.new) }
    {
        for p in order {
            self.eliminate_node(alloc, *p)?;
        }
        Ok(())
    }

    /// The board on which all arcs are entered and all nodes of `order` are eliminated.
    pub fn finished(
        alloc: Global,
        count: usize,
        arcs: &[Ends],
        order: &[usize],
    ) -> Result<Board, NoMemory>
        requires arcs { (k i j : ℕ) → IsArc arcs.now k i j → (i < count) × (j < count) }
        requires order { AreBelow count order.now }
        ensures table { IfOk result (λ b. table_of b ≡ finished count arcs.now order.now) }
        ensures count { IfOk result (λ b. b.count ≡ count) }
    {
        let mut board = Board::new(alloc, count, arcs.len())?;
        board.enter_all(arcs)?;
        board.eliminate_all(alloc, order)?;
        Ok(board)
    }

    /// The value that stands between `start` and each target.
    pub fn answers(
        &self,
        alloc: Global,
        start: usize,
        targets: &[usize],
    ) -> Result<Vec<Option<usize>>, NoMemory>
        ensures { IfOk result (λ v. v.items ≡ map (λ t. (table_of self.now).entry start t) targets.now) }
    {
        let mut answers = Vec::new(alloc);
        for target in targets {
            answers.push(self.entry(start, *target))?;
        }
        Ok(answers)
    }

    /// The steps; the rows are given up.
    #[tactic(auto, unfolding(crate::specs::Cells::table_of))]
    pub fn into_steps(self) -> Vec<Step>
        ensures { result.items ≡ (table_of self).steps }
    {
        let Board { steps, .. } = self;
        steps
    }
}
