// The lines of the tables that the rows of a file become.
ghost use Rattle.std.specs.Prelude.{◌≡◌, ◌<◌, ◌≤◌, ◌^◌, ◌↔◌, None, IfSome, length, slice_index_or};
ghost use Rattle.run_stores.specs.Files.{cell_row_of, call_row_of};
ghost use Rattle.page_imports.specs.RowFits.{CallFits, CellFits};
ghost use Rattle.page_imports.specs.FromRows.{place_of_cell, call_of_call, line_of_stack};
ghost use Rattle.prof_store.specs.Lines.{cell_row, call_row, stack_row};

use cost_rows::{ArcRow, CellRow, StackRow};
use prof_store::{ColumnInt, StoredCall, StoredCell, StoredStack, column_int_of, small_of};

/// The table's number of a name that the file has under a number of its own.
fn number_of(numbers: &[u32], name: u32) -> Option<u32>
    ensures some { IfSome result (λ n. n ≡ slice_index_or numbers.now name 0) }
    ensures none { (result ≡ None) ↔ (length numbers.now ≤ name) }
{
    match numbers.get(name as usize) {
        Some(number) => Some(*number),
        None => None,
    }
}

/// The table's numbers of the names of a place.
#[derive(Clone, Copy)]
struct PlaceNumbers {
    object: u32,
    file: u32,
    function: u32,
}

/// The table's numbers of an object, a file and a function.
fn numbers_of(numbers: &[u32], object: u32, file: u32, function: u32) -> Option<PlaceNumbers>
    ensures object { IfSome result (λ n. n.object ≡ slice_index_or numbers.now object 0) }
    ensures file { IfSome result (λ n. n.file ≡ slice_index_or numbers.now file 0) }
    ensures function { IfSome result (λ n. n.function ≡ slice_index_or numbers.now function 0) }
    ensures none { result ≡ None → ¬ ((object < length numbers.now) × (file < length numbers.now) × (function < length numbers.now)) }
{
    Some(PlaceNumbers {
        object: number_of(numbers, object)?,
        file: number_of(numbers, file)?,
        function: number_of(numbers, function)?,
    })
}

/// The line of a cell, unless a number in it is too great for its column, or a name has none.
pub fn cell_of(run: u32, numbers: &[u32], row: &CellRow<u32>) -> Option<StoredCell>
    ensures some { IfSome result (λ c. cell_row c ≡ cell_row_of run numbers.now (place_of_cell row.now) row.now.event row.now.cost) }
    ensures none { result ≡ None → ¬ CellFits numbers.now row.now }
{
    let place = numbers_of(numbers, row.object, row.file, row.function)?;
    Some(StoredCell {
        run,
        object: place.object,
        file: place.file,
        function: place.function,
        line: ColumnInt::of(row.line)?,
        thread: ColumnInt::of(row.thread)?,
        event: small_of(row.event)?,
        cost: column_int_of(row.cost)?,
    })
}

/// The line of a part of calls, unless a number in it is too great for its column, or a name has none.
pub fn call_of(
    run: u32,
    numbers: &[u32],
    row: &ArcRow<u32, &[u128]>,
    part: usize,
    sum: u128,
) -> Option<StoredCall>
    ensures some { IfSome result (λ a. call_row a ≡ call_row_of run numbers.now (call_of_call row.now) part sum) }
    ensures none { result ≡ None → ¬ CallFits numbers.now (call_of_call row.now) part sum }
{
    let place = numbers_of(numbers, row.object, row.file, row.function)?;
    let called = numbers_of(
        numbers,
        row.called_object,
        row.called_file,
        row.called_function,
    )?;
    Some(StoredCall {
        run,
        object: place.object,
        file: place.file,
        function: place.function,
        line: ColumnInt::of(row.line)?,
        called_object: called.object,
        called_file: called.file,
        called_function: called.function,
        part: small_of(part)?,
        sum: column_int_of(sum)?,
    })
}

/// The line of a stack, unless its count is too great for its column.
pub fn stack_of<'a>(run: u32, row: &StackRow<&'a [u8]>) -> Option<StoredStack<'a>>
    ensures some { IfSome result (λ s. stack_row s ≡ line_of_stack run row.now) }
    ensures none { (result ≡ None) ↔ (2 ^ 63 ≤ row.now.count) }
{
    Some(StoredStack {
        run,
        frames: row.stack,
        count: column_int_of(row.count)?,
    })
}
