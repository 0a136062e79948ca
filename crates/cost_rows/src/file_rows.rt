// The rows of one file.
ghost use Rattle.std.specs.Prelude.{◌≡◌, None, IfOk, map};
ghost use Rattle.profile_records.specs.Marks.{KnowsNothing};
ghost use Rattle.cost_rows.specs.Marks.{HaveNames};
ghost use Rattle.cost_rows.specs.Slots.{sums_in};
ghost use Rattle.cost_rows.specs.Totals.{AreWithin, AreTotals};

use crate::call_sums::CallSums;
use crate::guesses::{Guesses, NO_CELL};
use crate::lent_names::take_back;
use crate::marks::Marks;
use crate::names::Names;
use crate::numbered::{CallsByPlace, CellsByPlace, NumberedCalls, NumberedCells};
use crate::places::CellPlace;
use crate::records::{merge_call, merge_self};
use crate::rows::FileTotals;
use crate::stack_counts::StackCounts;
use crate::sum_map::SumMap;
use crate::totals::total_columns;
use crate::walks::{CallWalk, CellWalk, StackWalk, Walk};
use cg_text::ListVec;
use profile_records::{CallCost, SelfCost, Sink};
use std::alloc::{AllocError, Global};

/// The rows of one file: its names, each held once, and its records merged, one sum for each key.
/// It takes the records of a Callgrind file or the stacks of a folded one. Ordered maps hold the
/// sums: no file can choose keys that collide.
#[derive(Drop)]
pub struct FileRows {
    pub(crate) names: Names,
    pub(crate) cells: SumMap<CellPlace>,
    pub(crate) calls: CallSums,
    pub(crate) stacks: StackCounts,
    marks: Marks,
    pub(crate) guesses: Guesses,
    pub(crate) last: u64,
    width: Option<u64>,
    ghost within: { AreWithin cells calls (sums_in stacks) last },
    ghost named: { HaveNames names marks },
}

impl FileRows {
    ghost use Rattle.cost_rows.specs.Content.{empty};
    ghost use Rattle.cost_rows.specs.Rows.{content_of, known_of};
    ghost use Rattle.cost_rows.specs.ByNumber.{numbered_cells, numbered_calls};
    ghost use Rattle.cost_rows.specs.Walks.{cell_named, named_cells, edge_named, named_calls, counted_stacks};

    /// No record was taken. Takes no memory.
    pub fn new(alloc: Global) -> FileRows
        ensures content { content_of result ≡ empty }
        ensures last { result.last ≡ 0 }
        ensures width { result.width ≡ None }
        ensures known { KnowsNothing (known_of result) }
    {
        FileRows {
            names: Names::new(alloc),
            cells: SumMap::new(alloc),
            calls: CallSums::new(alloc),
            stacks: StackCounts::new(alloc),
            marks: Marks::new(alloc),
            guesses: Guesses::new(alloc),
            last: 0,
            width: None,
        }
    }

    /// The sums of calls, every one of them, in the order of the numbers of their names; the line
    /// comes after the caller's names. A column that is absent is 0. Takes no memory.
    pub fn arcs(&self) -> CallWalk<'_>
        ensures { map (edge_named result.names.now) result.rest ≡ named_calls (content_of self.now).names (content_of self.now).calls }
    {
        Walk {
            names: &self.names,
            rest: self.numbered_calls(),
        }
    }

    /// The counts of stacks above 0, by the bytes of their frames. Takes no memory.
    pub fn stacks(&self) -> StackWalk<'_>
        ensures { result ≡ counted_stacks (content_of self.now).stacks }
    {
        self.stacks.rows()
    }

    /// The sums of self costs above 0, in the order of the numbers of their names, then by line, by
    /// thread and by event. Takes no memory.
    pub fn cells(&self) -> CellWalk<'_>
        ensures { map (cell_named result.names.now) result.rest ≡ named_cells (content_of self.now).names (content_of self.now).cells }
    {
        Walk {
            names: &self.names,
            rest: self.numbered_cells(),
        }
    }

    /// The names, each held once.
    pub fn names(&self) -> &Names
        ensures { result.now ≡ (content_of self.now).names }
    {
        &self.names
    }

    /// The sums of self costs above 0 with names by their numbers, in the order of these, then by
    /// line, then by event. Takes no memory.
    pub fn numbered_cells(&self) -> NumberedCells<'_>
        ensures { result ≡ numbered_cells (content_of self.now).cells }
    {
        let rest = self.cells.iter();
        NumberedCells {
            rest,
            place: NO_CELL,
            costs: &[],
            event: 0,
        }
    }

    /// The sums of calls, every one of them, with names by their numbers, in the order of these; the
    /// line comes after the caller's names. Takes no memory.
    pub fn numbered_calls(&self) -> NumberedCalls<'_>
        ensures { result ≡ numbered_calls (content_of self.now).calls }
    {
        self.calls.iter()
    }

    /// The sums of self costs, as they are held. Takes no memory.
    pub fn cells_by_place(&self) -> CellsByPlace<'_>
        ensures { result ≡ (content_of self.now).cells }
    {
        CellsByPlace {
            rest: self.cells.iter(),
        }
    }

    /// The sums of calls, every one of them, as they are held. Takes no memory.
    pub fn calls_by_place(&self) -> CallsByPlace<'_>
        ensures { result ≡ (content_of self.now).calls }
    {
        self.calls.by_place()
    }

    /// The sums of all rows by column, of so many columns: as many as a record has costs, or more.
    pub fn totals(&self, alloc: Global, events: usize) -> Result<FileTotals, AllocError>
        ensures { IfOk result (λ t. AreTotals t (content_of self.now) events) }
    {
        let _last = self.last;
        let self_cost = total_columns(alloc, self.cells.iter(), events)?;
        let (call_count, call_cost) = self.calls.totals(alloc, events)?;
        Ok(FileTotals {
            self_cost: ListVec::from_vec(self_cost),
            call_cost: ListVec::from_vec(call_cost),
            call_count,
        })
    }
}

impl Sink for FileRows {
    ghost use Rattle.cost_rows.specs.Content.{Content, with_record};
    ghost use Rattle.cost_rows.specs.Rows.{content_of, known_of};

    ghost Meaning = { Content };

    ghost meaning = { content_of };

    ghost step = { with_record };

    ghost last = { λ r. r.last };

    ghost width = { λ r. r.width };

    ghost known = { known_of };

    fn self_cost(&mut self, r: SelfCost<'_>) -> Result<(), AllocError> {
        let held = self.names.len();
        if let Err(refused) = merge_self(&mut self.names, &mut self.marks, &mut self.cells, r) {
            take_back(&mut self.names, &mut self.marks, held);
            return Err(refused);
        }
        self.last = r.at;
        self.width = Some(r.costs.len() as u64);
        Ok(())
    }

    fn call(&mut self, r: CallCost<'_>) -> Result<(), AllocError> {
        let held = self.names.len();
        if let Err(refused) = merge_call(&mut self.names, &mut self.marks, &mut self.calls, r) {
            take_back(&mut self.names, &mut self.marks, held);
            return Err(refused);
        }
        self.last = r.at;
        self.width = Some(r.costs.len() as u64);
        Ok(())
    }
}
