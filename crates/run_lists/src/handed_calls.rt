// The calls of a run, handed on row by row, with the numbers of their names.
ghost use Rattle.std.specs.Prelude.{◌≡◌, ◌≢◌, ◌++◌, ◌∷◌, [], ℕ, List, None, OnOk, IfOk, IfErr};
ghost use Rattle.plain_tables.specs.Tables.{StoredCall as Call};
ghost use Rattle.prof_store.specs.Lines.{call_row};
ghost use Rattle.run_stores.specs.Walks.{CallsFoldTo};
ghost use Rattle.run_lists.specs.HeldCalls.{HasTakenCallLines, HasTakenCalls};

use crate::call_rows::{add_part, call_edge, filled, is_part_of};
use cg_text::ListVec;
use prof_store::{OutOfForm, StoreError, StoredCall};
use run_stores::CallSink;
use std::alloc::Global;
use std::mem;

/// Refuses a row of calls whose first line is not their count, part 0.
fn check_first(line: &StoredCall) -> Result<(), OutOfForm>
    ensures first { OnOk result (line.now.part ≡ 0) }
    ensures refused { IfErr result (λ _. line.now.part ≢ 0) }
{
    if line.part == 0 {
        Ok(())
    } else {
        Err(OutOfForm)
    }
}

/// Takes the lines of calls, and hands on a row, with the numbers of its names, once all its lines are taken.
#[derive(Drop)]
pub struct CallLines<T> {
    alloc: Global,
    events: usize,
    /// The line with the count of the row that is not handed on yet.
    first: Option<StoredCall>,
    /// Its costs.
    costs: ListVec<u128>,
    sink: T,
}

impl<T: CallSink> CallLines<T> {
    /// Nothing is taken yet. The lines are to be of so many events.
    pub fn new(alloc: Global, events: usize, sink: T) -> CallLines<T>
        ensures { HasTakenCallLines events T.meaning T.step (T.meaning sink) [] result }
    {
        CallLines {
            alloc,
            events,
            first: None,
            costs: ListVec::new(alloc),
            sink,
        }
    }

    /// Hands on the row that waits, if there is one.
    fn hand_on(&mut self) -> Result<(), StoreError>
        ensures same { self.new.events ≡ self.old.events }
        ensures none { OnOk result (self.new.first ≡ None) }
        ensures taken { OnOk result ((start : T.Meaning) (lines : List Call)
            → HasTakenCalls self.old.events T.step start (T.meaning self.old.sink) self.old.first self.old.costs lines
            → HasTakenCalls self.old.events T.step start (T.meaning self.new.sink) self.new.first self.new.costs lines) }
    {
        let Some(first) = self.first.take() else {
            return Ok(());
        };
        let costs = mem::replace(&mut self.costs, ListVec::new(self.alloc));
        let costs = filled(costs, self.events)?;
        self.sink.take(call_edge(&first, costs))
    }

    /// Takes a line: a part of the row that waits, or the count of the next. Errors: `Memory`; `Store` for a
    /// part without its count, parts that do not rise, and a cost of 0 or of none of the events; and those of
    /// the taker.
    pub fn take_line(&mut self, line: StoredCall) -> Result<(), StoreError>
        ensures { OnOk result ((events : ℕ) (start : T.Meaning) (lines : List Call)
            → HasTakenCallLines events T.meaning T.step start lines self.old
            → HasTakenCallLines events T.meaning T.step start (lines ++ call_row line ∷ []) self.new) }
    {
        if let Some(first) = &self.first
            && is_part_of(first, &line)
        {
            return add_part(&mut self.costs, &line, self.events);
        }
        self.hand_on()?;
        check_first(&line)?;
        self.first = Some(line);
        Ok(())
    }

    /// Hands on the row that waits, and gives back what took the calls of all lines. Errors as for a line.
    pub fn finish(mut self) -> Result<T, StoreError>
    where
        T: Drop,
        ensures { IfOk result (λ taken. (events : ℕ) (start : T.Meaning) (lines : List Call)
            → HasTakenCallLines events T.meaning T.step start lines self
            → CallsFoldTo events T.step start (T.meaning taken) lines) }
    {
        self.hand_on()?;
        let CallLines {
            alloc: _,
            events: _,
            first: _,
            costs: _,
            sink,
        } = self;
        Ok(sink)
    }
}
