// Callers and callees.
ghost use Rattle.std.specs.Prelude.{◌≡◌, ◌+◌, OnOk, IfOk, fold};
ghost use Rattle.report_texts.specs.Calls.{call_report_of, sum_of, with_calls};
ghost use Rattle.report_texts.specs.Functions.{function_spot};
ghost use Rattle.report_texts.specs.Pairs.{AreBelow, firsts_of, seconds_of};
ghost use Rattle.report_texts.specs.declared.call_sides.CallSide.TheVariants.{Callers, Callees};
ghost use Rattle.prof_library.specs.Given.{calls_in, calls_of_function};

use cost_reports::{CallReport, CallSide, CallSums, calls};
use cost_rows::ArcRow;
use std::alloc::{AllocError, Global};

/// Adds rows of calls to the sums of a function.
fn add_calls<'n>(sums: &mut CallSums<'n>, rows: &[ArcRow<&'n [u8], u128>]) -> Result<(), AllocError>
    requires small { AreBelow (firsts_of sums.old.sums + (sum_of (calls_in rows.now)).first) (seconds_of sums.old.sums + (sum_of (calls_in rows.now)).second) }
    ensures { OnOk result (sums.new ≡ fold with_calls sums.old (calls_in rows.now)) }
{
    for row in rows {
        sums.add(row)?;
    }
    Ok(())
}

/// The calls that have a function on one side.
fn calls_at<'n>(
    alloc: Global,
    side: CallSide,
    object: &'n [u8],
    function: &'n [u8],
    rows: &[ArcRow<&'n [u8], u128>],
) -> Result<CallReport<'n>, AllocError>
    requires small { AreBelow (sum_of (calls_in rows.now)).first (sum_of (calls_in rows.now)).second }
    ensures { IfOk result (λ report. report ≡ call_report_of (calls_of_function side (function_spot object.now function.now) (calls_in rows.now))) }
{
    let mut sums = CallSums::new(alloc, side, object, function);
    add_calls(&mut sums, rows)?;
    calls(alloc, &sums)
}

/// Who calls a function: what the calls cost, and how many there were.
pub fn callers<'n>(
    alloc: Global,
    object: &'n [u8],
    function: &'n [u8],
    rows: &[ArcRow<&'n [u8], u128>],
) -> Result<CallReport<'n>, AllocError>
    requires small { AreBelow (sum_of (calls_in rows.now)).first (sum_of (calls_in rows.now)).second }
    ensures { IfOk result (λ report. report ≡ call_report_of (calls_of_function Callers (function_spot object.now function.now) (calls_in rows.now))) }
{
    calls_at(alloc, CallSide::Callers, object, function, rows)
}

/// Whom a function calls: what the calls cost, and how many there were.
pub fn callees<'n>(
    alloc: Global,
    object: &'n [u8],
    function: &'n [u8],
    rows: &[ArcRow<&'n [u8], u128>],
) -> Result<CallReport<'n>, AllocError>
    requires small { AreBelow (sum_of (calls_in rows.now)).first (sum_of (calls_in rows.now)).second }
    ensures { IfOk result (λ report. report ≡ call_report_of (calls_of_function Callees (function_spot object.now function.now) (calls_in rows.now))) }
{
    calls_at(alloc, CallSide::Callees, object, function, rows)
}
