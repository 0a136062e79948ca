// The lines of the calls of a file, each a place in its rows (specs/Lines.antt).
ghost use Rattle.std.specs.Prelude.{◌≡◌, ◌<◌, ◌++◌, ◌∷◌, [], None, map, IfErr, IfOk, IfSome, OnOk};
ghost use Rattle.cost_rows.specs.ByNumber.{plain_call};
ghost use Rattle.cost_rows.specs.Rows.{content_of};
ghost use Rattle.run_stores.specs.Files.{call_rows};
ghost use Rattle.page_imports.specs.RowFits.{CallFits, RefusesUnless};
ghost use Rattle.page_imports.specs.Fits.{CallsFit, PartsFit};
ghost use Rattle.page_imports.specs.Lines.{call_line, cost_row, part_row, part_rows};

use crate::row_lines::CallLine;
use crate::run_names::{RunNames, name_value};
use cost_rows::{Call, CallSum, FileRows};
use line_fills::PageLine;
use plain_tables::StoreError;
use prof_store::{column_int_of, small_of};
use sqlite_value::value::ValueRef;
use std::alloc::Global;
use std::cmp::Ordering;

impl PageLine for CallLine<'_> {
    ghost use Rattle.prof_store.specs.Tables.{arc_columns};
    ghost use Rattle.page_imports.specs.Lines.{call_line};

    ghost columns = { λ line. arc_columns (call_line line) };

    #[inline(always)]
    fn width(&self) -> usize {
        10
    }

    #[inline(always)]
    fn value(&self, at: usize) -> ValueRef<'_> {
        let call = self.call;
        match at {
            0 => ValueRef::Int(i64::from(self.names.run)),
            1 => name_value(self.names, call.place.object),
            2 => name_value(self.names, call.place.file),
            3 => name_value(self.names, call.place.function),
            4 => ValueRef::Int(call.place.line as i64),
            5 => name_value(self.names, call.object),
            6 => name_value(self.names, call.file),
            7 => name_value(self.names, call.function),
            8 => ValueRef::Int(i64::from(self.part)),
            9 => ValueRef::Int(self.sum.as_i64()),
            _ => ValueRef::Null,
        }
    }

    /// Both lines are of one run.
    fn compare(&self, other: &Self, _index: usize) -> Ordering {
        let names = self.names;
        let (one, two) = (self.call, other.call);
        let mut order = names.compare(one.place.object, two.place.object);
        if order.is_eq() {
            order = names.compare(one.place.file, two.place.file);
        }
        if order.is_eq() {
            order = names.compare(one.place.function, two.place.function);
        }
        if order.is_eq() {
            order = one.place.line.cmp(&two.place.line);
        }
        if order.is_eq() {
            order = names.compare(one.object, two.object);
        }
        if order.is_eq() {
            order = names.compare(one.file, two.file);
        }
        if order.is_eq() {
            order = names.compare(one.function, two.function);
        }
        if order.is_eq() {
            order = self.part.cmp(&other.part);
        }
        order
    }
}

/// The line of a part of calls, unless a number in it is too great for its column, or a name has none.
fn line_of<'a>(
    names: &'a RunNames<'a>,
    call: &'a Call,
    part: usize,
    sum: u128,
) -> Option<CallLine<'a>>
    ensures some { IfSome result (λ line. call_line line ≡ part_row names.now call.now part sum) }
    ensures none { result ≡ None → ¬ CallFits names.now.numbers.now call.now part sum }
{
    let at = &call.place;
    if !names.has(at.object) || !names.has(at.file) || !names.has(at.function) {
        return None;
    }
    if !names.has(call.object) || !names.has(call.file) || !names.has(call.function) {
        return None;
    }
    if at.line >= 1 << 63 {
        return None;
    }
    Some(CallLine {
        names,
        call,
        part: small_of(part)?,
        sum: column_int_of(sum)?,
    })
}

/// Adds the line of a part of calls.
fn add_part<'a>(
    lines: &mut Vec<CallLine<'a>>,
    names: &'a RunNames<'a>,
    call: &'a Call,
    part: usize,
    sum: u128,
) -> Result<(), StoreError>
    ensures added { OnOk result (map call_line lines.new.items ≡ map call_line lines.old.items ++ part_row names.now call.now part sum ∷ []) }
    ensures refused { IfErr result (RefusesUnless (CallFits names.now.numbers.now call.now part sum)) }
{
    let Some(line) = line_of(names, call, part, sum) else {
        return Err(StoreError::Store);
    };
    if lines.push(line).is_err() {
        return Err(StoreError::Memory);
    }
    Ok(())
}

/// Adds the line of a cost of calls, unless it is 0.
fn add_cost<'a>(
    lines: &mut Vec<CallLine<'a>>,
    names: &'a RunNames<'a>,
    call: &'a Call,
    part: usize,
    cost: u128,
) -> Result<(), StoreError>
    ensures added { OnOk result (map call_line lines.new.items ≡ map call_line lines.old.items ++ cost_row names.now call.now part cost) }
    ensures refused { IfErr result (RefusesUnless (0 < cost → CallFits names.now.numbers.now call.now part cost)) }
{
    if cost > 0 {
        add_part(lines, names, call, part, cost)
    } else {
        Ok(())
    }
}

/// Adds the lines of calls from a place: their number, and each cost above 0.
fn add_calls<'a>(
    lines: &mut Vec<CallLine<'a>>,
    names: &'a RunNames<'a>,
    calls: &CallSum<'a>,
) -> Result<(), StoreError>
    ensures added { OnOk result (map call_line lines.new.items ≡ map call_line lines.old.items ++ part_rows names.now calls.now) }
    ensures refused { IfErr result (RefusesUnless (PartsFit names.now.numbers.now (plain_call calls.now))) }
{
    let call = calls.call;
    add_part(lines, names, call, 0, calls.count)?;
    let costs = calls.costs;
    'costs: for (column, cost) in costs.iter().enumerate() {
        add_cost(lines, names, call, column + 1, *cost)?;
    }
    Ok(())
}

/// The lines of the sums of calls. `Store` where a number is too great for its column, or a name has none.
pub(crate) fn call_lines<'a>(
    alloc: Global,
    names: &'a RunNames<'a>,
    rows: &'a FileRows,
) -> Result<Vec<CallLine<'a>>, StoreError>
    ensures value { IfOk result (λ lines. map call_line lines.items ≡ call_rows names.now.run names.now.numbers.now (content_of rows.now).calls) }
    ensures refused { IfErr result (RefusesUnless (CallsFit names.now.numbers.now (content_of rows.now).calls)) }
{
    let mut lines = Vec::new(alloc);
    'rows: for calls in rows.calls_by_place() {
        add_calls(&mut lines, names, &calls)?;
    }
    Ok(lines)
}
