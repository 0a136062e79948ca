// What a store tells of all that it holds, as bytes that are compared. No guarantees: the tests see whether two are the same.
use cg_text::ListVec;
use cost_rows::{ArcRow, CellRow, StackRow};
use run_stores::{
    CallSink, CellSink, Kind, NameTable, RunEntry, RunStore, StackRowSink, StoreError,
};
use std::alloc::{AllocError, Global};

/// Names are asked for by these numbers: those of the tests are below.
const NAMES: u32 = 100;

/// Adds numbers.
fn push_numbers(told: &mut Vec<u8>, numbers: &[u128]) -> Result<(), AllocError> {
    for number in numbers {
        told.extend_from_slice(&number.to_be_bytes())?;
    }
    Ok(())
}

/// Adds numbers of names.
fn push_small(told: &mut Vec<u8>, numbers: &[u32]) -> Result<(), AllocError> {
    for number in numbers {
        push_numbers(told, &[u128::from(*number)])?;
    }
    Ok(())
}

/// Adds bytes behind their number.
fn push_bytes(told: &mut Vec<u8>, bytes: &[u8]) -> Result<(), AllocError> {
    push_numbers(told, &[bytes.len() as u128])?;
    told.extend_from_slice(bytes)
}

/// The rows of runs, in the order in which they come.
#[derive(Drop)]
struct Rows {
    told: Vec<u8>,
}

impl CellSink for Rows {
    ghost use Rattle.std.specs.Prelude.{⊤};

    ghost Meaning = { ⊤ };

    ghost meaning = { λ _. tt };

    ghost step = { λ _ _. tt };

    fn take(&mut self, row: &CellRow<u32>) -> Result<(), StoreError> {
        push_small(&mut self.told, &[row.object, row.file, row.function])?;
        let numbers = [
            u128::from(row.line),
            u128::from(row.thread),
            row.event as u128,
            row.cost,
        ];
        Ok(push_numbers(&mut self.told, &numbers)?)
    }
}

impl CallSink for Rows {
    ghost use Rattle.std.specs.Prelude.{⊤};

    ghost Meaning = { ⊤ };

    ghost meaning = { λ _. tt };

    ghost step = { λ _ _. tt };

    fn take(&mut self, row: ArcRow<u32, ListVec<u128>>) -> Result<(), StoreError> {
        push_small(&mut self.told, &[row.object, row.file, row.function])?;
        let called = [row.called_object, row.called_file, row.called_function];
        push_small(&mut self.told, &called)?;
        push_numbers(&mut self.told, &[u128::from(row.line), row.count])?;
        Ok(push_numbers(&mut self.told, row.costs.as_slice())?)
    }
}

impl StackRowSink for Rows {
    ghost use Rattle.std.specs.Prelude.{⊤};

    ghost Meaning = { ⊤ };

    ghost meaning = { λ _. tt };

    ghost step = { λ _ _. tt };

    fn take(&mut self, row: &StackRow<&[u8]>) -> Result<(), StoreError> {
        push_bytes(&mut self.told, row.stack)?;
        Ok(push_numbers(&mut self.told, &[row.count])?)
    }
}

/// The rows of a run in the tables of cells, of calls and of stacks.
fn rows_of<S: RunStore>(
    store: &mut S,
    alloc: Global,
    run: u32,
    events: usize,
) -> Result<Rows, StoreError> {
    let none = Rows {
        told: Vec::new(alloc),
    };
    let cells = store.each_cell(run, events, none)?;
    let calls = store.each_call(alloc, run, events, cells)?;
    store.each_stack(run, calls)
}

/// Adds a run: its entry in the list, its sums and its rows.
fn push_run<S: RunStore>(
    store: &mut S,
    alloc: Global,
    run: &RunEntry,
    told: &mut Vec<u8>,
) -> Result<(), StoreError> {
    push_numbers(
        told,
        &[u128::from(run.number), u128::from(run.kind == Kind::Folded)],
    )?;
    push_bytes(told, &run.digest)?;
    push_bytes(told, run.label.as_bytes())?;
    let sums = store.sums_of(alloc, run.number)?;
    push_numbers(told, sums.as_slice())?;
    let rows = rows_of(store, alloc, run.number, sums.len())?;
    Ok(push_bytes(told, rows.told.as_slice())?)
}

/// Adds the groups with their baselines and members.
fn push_groups<S: RunStore>(
    store: &mut S,
    alloc: Global,
    told: &mut Vec<u8>,
) -> Result<(), StoreError> {
    for group in store.groups(alloc)?.iter() {
        push_bytes(told, group.name.as_bytes())?;
        push_numbers(told, &[u128::from(group.baseline.unwrap_or(0))])?;
        push_small(told, group.members.as_slice())?;
    }
    Ok(())
}

/// Adds the names that are held.
fn push_names<S: RunStore>(
    store: &mut S,
    alloc: Global,
    told: &mut Vec<u8>,
) -> Result<(), StoreError> {
    let names = store.names_of(alloc)?;
    for number in 0..NAMES {
        if let Some(name) = names.name(number) {
            push_numbers(told, &[u128::from(number)])?;
            push_bytes(told, name)?;
        }
    }
    Ok(())
}

/// All that a store tells: the next number, runs, groups and names.
pub(crate) fn told_by<S: RunStore>(store: &mut S, alloc: Global) -> Result<Vec<u8>, StoreError> {
    let mut told = Vec::new(alloc);
    push_numbers(&mut told, &[u128::from(store.next_run()?)])?;
    for run in store.runs(alloc)?.iter() {
        push_run(store, alloc, run, &mut told)?;
    }
    push_groups(store, alloc, &mut told)?;
    push_names(store, alloc, &mut told)?;
    Ok(told)
}
