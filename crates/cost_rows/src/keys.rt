// What reports are made by.
ghost use Rattle.std.specs.Prelude.{◌≡◌, IfOk};
ghost use Rattle.cost_rows.specs.Keys.{key_name, part_of, lent_place, plain_place, place_of_row};
ghost use Rattle.cost_rows.specs.Plain.{plain_cell};

use crate::rows::CellRow;
use cg_text::UNKNOWN;
use std::alloc::{AllocError, Global};

/// What rows are added up by: objects; files; functions, each of its object; lines, each of its file;
/// threads.
#[derive(Clone, Copy, Debug, PartialEq, Eq)]
pub enum Key {
    Object,
    File,
    Function,
    Line,
    Thread,
}

/// A place by names that are lent; the parts outside a key are `???` and 0.
#[derive(Clone, Copy, PartialEq, Eq, PartialOrd, Ord)]
pub struct LentPlace<'a> {
    pub object: &'a [u8],
    pub file: &'a [u8],
    pub function: &'a [u8],
    pub line: u64,
    pub thread: u64,
}

impl Key {
    /// The word for it.
    pub fn name(self) -> &'static [u8]
        ensures { result.now ≡ key_name self }
    {
        match self {
            Key::Object => b"object",
            Key::File => b"file",
            Key::Function => b"function",
            Key::Line => b"line",
            Key::Thread => b"thread",
        }
    }

    /// The part of a row's place that the key tells.
    pub fn part<'a>(self, row: &CellRow<&'a [u8]>) -> LentPlace<'a>
        ensures { lent_place result ≡ part_of self (place_of_row (plain_cell row.now)) }
    {
        let unknown = UNKNOWN;
        let (object, file, function, line, thread) = match self {
            Key::Object => (row.object, unknown, unknown, 0, 0),
            Key::File => (unknown, row.file, unknown, 0, 0),
            Key::Function => (row.object, unknown, row.function, 0, 0),
            Key::Line => (unknown, row.file, unknown, row.line, 0),
            Key::Thread => (unknown, unknown, unknown, 0, row.thread),
        };
        LentPlace {
            object,
            file,
            function,
            line,
            thread,
        }
    }
}

/// A part of a place, with names of its own.
#[derive(PartialEq, Eq, PartialOrd, Ord, Drop)]
pub(crate) struct Part {
    pub(crate) object: Vec<u8>,
    pub(crate) file: Vec<u8>,
    pub(crate) function: Vec<u8>,
    pub(crate) line: u64,
    pub(crate) thread: u64,
}

impl LentPlace<'_> {
    /// The part with names of its own.
    pub(crate) fn to_part(&self, alloc: Global) -> Result<Part, AllocError>
        ensures { IfOk result (λ part. plain_place part ≡ lent_place self.now) }
    {
        Ok(Part {
            object: self.object.to_vec(alloc)?,
            file: self.file.to_vec(alloc)?,
            function: self.function.to_vec(alloc)?,
            line: self.line,
            thread: self.thread,
        })
    }
}
