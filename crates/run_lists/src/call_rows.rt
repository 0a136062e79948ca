// The rows of a run's calls, made of their lines.
ghost use Rattle.std.specs.Prelude.{◌≡◌, ◌≤◌, ◌++◌, ◌∷◌, [], IfOk, OnOk, IsTrue, length};
ghost use Rattle.run_lists.specs.HeldCalls.{lines_from, part_line, row_of};
ghost use Rattle.prof_store.specs.Lines.{call_row};

use cg_text::ListVec;
use cost_rows::ArcRow;
use prof_store::{StoreError, StoredCall};

/// Adds zeros, up to a length.
fn fill(costs: &mut ListVec<u128>, len: usize) -> Result<(), StoreError>
    ensures lines { OnOk result ((first : _) (part : _) → lines_from first part costs.new ≡ lines_from first part costs.old) }
    ensures len { OnOk result (length costs.old ≤ len → length costs.new ≡ len) }
{
    'columns: for _ in costs.len()..len {
        if costs.push(0).is_err() {
            return Err(StoreError::Memory);
        }
    }
    Ok(())
}

/// Adds a part at its column, and a 0 for each column before it that has none.
pub(crate) fn add_part(
    costs: &mut ListVec<u128>,
    line: &StoredCall,
    events: usize,
) -> Result<(), StoreError>
    ensures lines { OnOk result ((first : _) → lines_from first 1 costs.new ≡ lines_from first 1 costs.old ++ part_line first line.now.part line.now.sum ∷ []) }
    ensures within { OnOk result (length costs.new ≤ events) }
{
    let part = line.part as usize;
    let sum = line.sum.get();
    if part <= costs.len() || part > events || sum == 0 {
        return Err(StoreError::Store);
    }
    fill(costs, part - 1)?;
    match costs.push(u128::from(sum)) {
        Ok(()) => Ok(()),
        Err(_) => Err(StoreError::Memory),
    }
}

/// The costs of all columns.
pub(crate) fn filled(mut costs: ListVec<u128>, events: usize) -> Result<ListVec<u128>, StoreError>
    ensures lines { IfOk result (λ full. (first : _) (part : _) → lines_from first part full ≡ lines_from first part costs) }
    ensures events { IfOk result (λ full. length costs ≤ events → length full ≡ events) }
{
    fill(&mut costs, events)?;
    Ok(costs)
}

/// Whether a line has a part of the same calls.
pub(crate) fn is_part_of(first: &StoredCall, line: &StoredCall) -> bool
    ensures { IsTrue result → call_row line.now ≡ part_line (call_row first.now) line.now.part line.now.sum }
{
    first.run == line.run
        && first.object == line.object
        && first.file == line.file
        && first.function == line.function
        && first.line.get() == line.line.get()
        && first.called_object == line.called_object
        && first.called_file == line.called_file
        && first.called_function == line.called_function
}

/// The row of the calls whose count this line has.
pub(crate) fn call_edge(first: &StoredCall, costs: ListVec<u128>) -> ArcRow<u32, ListVec<u128>>
    ensures { result ≡ row_of (call_row first.now) costs }
{
    ArcRow {
        object: first.object,
        file: first.file,
        function: first.function,
        line: first.line.get(),
        called_object: first.called_object,
        called_file: first.called_file,
        called_function: first.called_function,
        count: u128::from(first.sum.get()),
        costs,
    }
}
