// The calls that were kept, with the names of the functions on their other side.
ghost use Rattle.std.specs.Prelude.{◌≡◌, List, flat_map, IfOk};
ghost use Rattle.report_texts.specs.Calls.{calls_of_row};
ghost use Rattle.plain_tables.specs.Tables.{NameRow};
ghost use Rattle.selected_runs.specs.Named.{AreOf};
ghost use Rattle.store_calls.specs.KeptCalls.{call_numbers, calls_named, kept_of, spot_asked, sums_named};

use crate::asked_functions::AskedFunction;
use crate::kept_rows::{KeptCall, KeptCalls};
use cg_text::UNKNOWN;
use cost_reports::CallSums;
use cost_rows::ArcRow;
use report_texts::CallSide;
use run_stores::{NameTable, StoreError};
use selected_runs::held_name;
use std::alloc::{AllocError, Global};

/// The numbers of the names of the functions on the other side of calls: a number may come more than once.
pub(crate) fn numbers_of(alloc: Global, calls: &[KeptCall]) -> Result<Vec<u32>, AllocError>
    ensures { IfOk result (λ numbers. numbers.items ≡ flat_map call_numbers calls.now) }
{
    let mut numbers = Vec::new(alloc);
    for call in calls {
        numbers.push(call.object)?;
        numbers.push(call.function)?;
    }
    Ok(numbers)
}

/// Calls that were kept, with the names of both functions. `Store` where one is not held.
fn named_call<'n, N: NameTable>(
    names: &'n N,
    side: CallSide,
    asked: AskedFunction<'n>,
    call: &KeptCall,
) -> Result<ArcRow<&'n [u8], u128>, StoreError>
    ensures calls { IfOk result (λ row. (all : List NameRow) → AreOf all (N.name_rows names.now)
        → calls_of_row row ≡ calls_named all side (spot_asked asked.entry) call.now) }
    ensures sum { IfOk result (λ row. (row.costs ≡ call.now.sum.first) × (row.count ≡ call.now.sum.second)) }
{
    let file = UNKNOWN;
    let other = (
        held_name(names, call.object)?,
        held_name(names, call.function)?,
    );
    let function = (asked.object, asked.name);
    let (caller, called) = match side {
        CallSide::Callers => (other, function),
        CallSide::Callees => (function, other),
    };
    Ok(ArcRow {
        object: caller.0,
        file,
        function: caller.1,
        line: 0,
        called_object: called.0,
        called_file: file,
        called_function: called.1,
        count: call.sum.second,
        costs: call.sum.first,
    })
}

/// The calls that were kept, added up by the names of the functions on their other side: the names may be some of
/// all names. Errors: `Memory`; and `Store` where a name is not held.
pub(crate) fn sums_named<'n, N: NameTable>(
    alloc: Global,
    names: &'n N,
    asked: AskedFunction<'n>,
    calls: &KeptCalls,
) -> Result<CallSums<'n>, StoreError>
    ensures { IfOk result (λ sums. (all : List NameRow) → AreOf all (N.name_rows names.now)
        → sums ≡ sums_named all (spot_asked asked.entry) (kept_of calls.now)) }
{
    let mut sums = CallSums::new(alloc, calls.side, asked.object, asked.name);
    for call in &calls.rows {
        let row = named_call(names, calls.side, asked, call)?;
        sums.add(&row)?;
    }
    Ok(sums)
}
