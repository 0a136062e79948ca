// Reports of rows that are handed in, in any order.
ghost use Rattle.std.specs.Prelude.{◌≡◌};

use prof_library::{
    ArcRow, CellRow, Cut, Key, Report, StackRow, by, callees, callers, inclusive, subtract,
};
use std::alloc::Global;
use std::test::Fail;

/// A cost at a line of `f`.
fn cell(file: &'static [u8], line: u64, cost: u128) -> CellRow<&'static [u8]>
    ensures { result.cost ≡ cost }
{
    CellRow {
        object: b"x.so",
        file,
        function: b"f",
        line,
        thread: 0,
        event: 0,
        cost,
    }
}

/// Calls from a function of `x.so` to another.
fn calls(
    function: &'static [u8],
    called: &'static [u8],
    count: u128,
    costs: u128,
) -> ArcRow<&'static [u8], u128>
    ensures count { result.count ≡ count }
    ensures costs { result.costs ≡ costs }
{
    ArcRow {
        object: b"x.so",
        file: b"a.c",
        function,
        line: 1,
        called_object: b"x.so",
        called_file: b"a.c",
        called_function: called,
        count,
        costs,
    }
}

/// Fails where a text is another.
fn is_text(text: Option<&[u8]>, wanted: &'static str) -> Result<(), Fail> {
    if text != Some(wanted.as_bytes()) {
        Err(wanted)?;
    }
    Ok(())
}

/// Whether a report shows one row of 50, leaves 30, and has a total of 80.
fn shows_the_greatest(report: &Report<'_>) -> bool {
    let costs = report.rows().first().map(|row| row.cost());
    report.rows().len() == 1 && costs == Some(50) && report.rest() == 30 && report.total() == 80
}

pub fn rows_of_one_key_are_added_up(alloc: Global) -> Result<(), Fail> {
    let rows = [
        cell(b"a.c", 1, 30),
        cell(b"b.c", 7, 30),
        cell(b"a.c", 2, 20),
    ];
    let cut = Cut {
        limit: Some(1),
        threshold: 100,
    };
    let report = by(alloc, Key::File, &rows, cut)?;
    if !shows_the_greatest(&report) {
        Err("another report by file")?;
    }
    let text = report.text(alloc, 1000, b"Ir")?;
    is_text(
        text.as_slice(),
        "by file Ir\n80 100.00% total\n50 62.50% a.c\n30 37.50% (rest)\n",
    )
}

pub fn a_difference_of_rows(alloc: Global) -> Result<(), Fail> {
    let first = [
        cell(b"a.c", 1, 30),
        cell(b"b.c", 7, 30),
        cell(b"a.c", 2, 20),
    ];
    let second = [cell(b"b.c", 7, 30), cell(b"a.c", 1, 60)];
    let text = subtract(alloc, Key::File, &first, &second)?.text(alloc, 1000, b"Ir")?;
    is_text(text.as_slice(), "subtract file Ir\n-10 total\n-10 a.c\n")
}

pub fn callers_and_callees_of_rows(alloc: Global) -> Result<(), Fail> {
    let rows = [
        calls(b"main", b"f", 1, 40),
        calls(b"f", b"g", 2, 5),
        calls(b"main", b"f", 2, 10),
    ];
    let text = callers(alloc, b"x.so", b"f", &rows)?.text(alloc, 1000, b"Ir")?;
    is_text(
        text.as_slice(),
        "callers Ir x.so:f\n50 3 total\n50 3 x.so:main\n",
    )?;
    let text = callees(alloc, b"x.so", b"f", &rows)?.text(alloc, 1000, b"Ir")?;
    is_text(
        text.as_slice(),
        "callees Ir x.so:f\n5 2 total\n5 2 x.so:g\n",
    )
}

pub fn inclusive_costs_of_rows(alloc: Global) -> Result<(), Fail> {
    let cells = [cell(b"a.c", 1, 30), cell(b"a.c", 2, 20)];
    let arcs = [calls(b"f", b"f", 1, 4), calls(b"f", b"g", 2, 5)];
    let stacks = [StackRow {
        stack: b"a;b;a".as_slice(),
        count: 3,
    }];
    let text = inclusive(alloc, &cells, &arcs, &stacks)?.text(alloc, 1000, b"Ir")?;
    is_text(
        text.as_slice(),
        "inclusive Ir\n53 100.00% total\n55 103.77% x.so:f\n3 5.66% ???:a\n3 5.66% ???:b\n",
    )
}
