// The lines of the self costs of a file, each a place in its rows (specs/Lines.antt).
ghost use Rattle.std.specs.Prelude.{◌≡◌, ◌<◌, ◌++◌, ◌∷◌, [], None, map, IfErr, IfOk, IfSome, OnOk};
ghost use Rattle.cost_rows.specs.ByNumber.{numbered_cell, plain_cell_sum};
ghost use Rattle.cost_rows.specs.Rows.{content_of};
ghost use Rattle.run_stores.specs.Files.{cell_rows};
ghost use Rattle.page_imports.specs.RowFits.{CellFits, RefusesUnless};
ghost use Rattle.page_imports.specs.Fits.{CellsFit, CostsFit};
ghost use Rattle.page_imports.specs.Lines.{cell_line, event_row, event_rows, self_row};

use crate::row_lines::CellLine;
use crate::run_names::{RunNames, name_value};
use cost_rows::{CellPlace, CellSum, FileRows};
use line_fills::PageLine;
use plain_tables::StoreError;
use prof_store::{column_int_of, small_of};
use sqlite_value::value::ValueRef;
use std::alloc::Global;
use std::cmp::Ordering;

impl PageLine for CellLine<'_> {
    ghost use Rattle.prof_store.specs.Tables.{cell_columns};
    ghost use Rattle.page_imports.specs.Lines.{cell_line};

    ghost columns = { λ line. cell_columns (cell_line line) };

    #[inline(always)]
    fn width(&self) -> usize {
        8
    }

    #[inline(always)]
    fn value(&self, at: usize) -> ValueRef<'_> {
        let place = &self.place.place;
        match at {
            0 => ValueRef::Int(i64::from(self.names.run)),
            1 => ValueRef::Int(self.place.thread as i64),
            2 => name_value(self.names, place.object),
            3 => name_value(self.names, place.file),
            4 => name_value(self.names, place.function),
            5 => ValueRef::Int(place.line as i64),
            6 => ValueRef::Int(i64::from(self.event)),
            7 => ValueRef::Int(self.cost.as_i64()),
            _ => ValueRef::Null,
        }
    }

    /// Both lines are of one run.
    fn compare(&self, other: &Self, _index: usize) -> Ordering {
        let names = self.names;
        let (one, two) = (&self.place.place, &other.place.place);
        let mut order = names.compare(one.function, two.function);
        if order.is_eq() {
            order = one.line.cmp(&two.line);
        }
        if order.is_eq() {
            order = names.compare(one.file, two.file);
        }
        if order.is_eq() {
            order = names.compare(one.object, two.object);
        }
        if order.is_eq() {
            order = self.place.thread.cmp(&other.place.thread);
        }
        if order.is_eq() {
            order = self.event.cmp(&other.event);
        }
        order
    }
}

/// The line of an event's cost at a place, unless a number in it is too great for its column, or a name has none.
fn line_of<'a>(
    names: &'a RunNames<'a>,
    place: &'a CellPlace,
    event: usize,
    cost: u128,
) -> Option<CellLine<'a>>
    ensures some { IfSome result (λ line. cell_line line ≡ self_row names.now place.now event cost) }
    ensures none { result ≡ None → ¬ CellFits names.now.numbers.now (numbered_cell place.now event cost) }
{
    let at = &place.place;
    if !names.has(at.object) || !names.has(at.file) || !names.has(at.function) {
        return None;
    }
    if at.line >= 1 << 63 || place.thread >= 1 << 63 {
        return None;
    }
    Some(CellLine {
        names,
        place,
        event: small_of(event)?,
        cost: column_int_of(cost)?,
    })
}

/// Adds the line of an event's cost at a place, unless it is 0.
fn add_cost<'a>(
    lines: &mut Vec<CellLine<'a>>,
    names: &'a RunNames<'a>,
    place: &'a CellPlace,
    event: usize,
    cost: u128,
) -> Result<(), StoreError>
    ensures added { OnOk result (map cell_line lines.new.items ≡ map cell_line lines.old.items ++ event_row names.now place.now event cost) }
    ensures refused { IfErr result (RefusesUnless (0 < cost → CellFits names.now.numbers.now (numbered_cell place.now event cost))) }
{
    if cost == 0 {
        return Ok(());
    }
    let Some(line) = line_of(names, place, event, cost) else {
        return Err(StoreError::Store);
    };
    if lines.push(line).is_err() {
        return Err(StoreError::Memory);
    }
    Ok(())
}

/// Adds the lines of the costs above 0 at a place.
fn add_costs<'a>(
    lines: &mut Vec<CellLine<'a>>,
    names: &'a RunNames<'a>,
    sums: &CellSum<'a>,
) -> Result<(), StoreError>
    ensures added { OnOk result (map cell_line lines.new.items ≡ map cell_line lines.old.items ++ event_rows names.now sums.now) }
    ensures refused { IfErr result (RefusesUnless (CostsFit names.now.numbers.now (plain_cell_sum sums.now))) }
{
    let place = sums.place;
    let costs = sums.costs;
    'costs: for (event, cost) in costs.iter().enumerate() {
        add_cost(lines, names, place, event, *cost)?;
    }
    Ok(())
}

/// The lines of the sums of self costs. `Store` where a number is too great for its column, or a name has none.
pub(crate) fn cell_lines<'a>(
    alloc: Global,
    names: &'a RunNames<'a>,
    rows: &'a FileRows,
) -> Result<Vec<CellLine<'a>>, StoreError>
    ensures value { IfOk result (λ lines. map cell_line lines.items ≡ cell_rows names.now.run names.now.numbers.now (content_of rows.now).cells) }
    ensures refused { IfErr result (RefusesUnless (CellsFit names.now.numbers.now (content_of rows.now).cells)) }
{
    let mut lines = Vec::new(alloc);
    'rows: for sums in rows.cells_by_place() {
        add_costs(&mut lines, names, &sums)?;
    }
    Ok(lines)
}
