// The lines of self costs and of calls: places in the rows of a file, each name of which has a number in the tables.
ghost use Rattle.std.specs.Prelude.{◌<◌, ◌^◌, length};

use crate::run_names::RunNames;
use cost_rows::{Call, CellPlace};
use prof_store::ColumnInt;

/// What an event costs at a place. The place is read off the file's rows when the line is written, so that a list of
/// lines takes little memory.
#[derive(Drop)]
pub(crate) struct CellLine<'a> {
    pub names: &'a RunNames<'a>,
    pub place: &'a CellPlace,
    pub event: u32,
    pub cost: ColumnInt,
    ghost object: { place.now.place.object < length names.now.numbers.now },
    ghost file: { place.now.place.file < length names.now.numbers.now },
    ghost function: { place.now.place.function < length names.now.numbers.now },
    ghost line_fits: { place.now.place.line < 2 ^ 63 },
    ghost thread_fits: { place.now.thread < 2 ^ 63 },
}

/// A part of the calls of a run. Its names are read off the file's rows when it is written, so that a list of lines
/// takes little memory.
#[derive(Drop)]
pub(crate) struct CallLine<'a> {
    pub names: &'a RunNames<'a>,
    pub call: &'a Call,
    pub part: u32,
    pub sum: ColumnInt,
    ghost object: { call.now.place.object < length names.now.numbers.now },
    ghost file: { call.now.place.file < length names.now.numbers.now },
    ghost function: { call.now.place.function < length names.now.numbers.now },
    ghost called_object: { call.now.object < length names.now.numbers.now },
    ghost called_file: { call.now.file < length names.now.numbers.now },
    ghost called_function: { call.now.function < length names.now.numbers.now },
    ghost fits: { call.now.place.line < 2 ^ 63 },
}
