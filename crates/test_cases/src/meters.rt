// How many changes are still made of the files of a database.
use std::alloc::{AllocError, Global};
use std::cell::Cell;
use std::rc::Rc;

/// Which files stop.
#[derive(Clone, Copy)]
pub enum Stops {
    Log,
    Database,
    Both,
}

/// How many changes are still made of two files: of those that stop, in all, and of the other. No guarantees: what a cell
/// holds the checker does not know.
#[derive(Drop)]
pub struct Meter {
    stops: Stops,
    stopping: Rc<Cell<u64>>,
    other: Rc<Cell<u64>>,
}

impl Meter {
    /// Any number of changes is made.
    pub fn new(alloc: Global, stops: Stops) -> Result<Meter, AllocError> {
        Ok(Meter {
            stops,
            stopping: Rc::new(alloc, Cell::new(u64::MAX))?,
            other: Rc::new(alloc, Cell::new(u64::MAX))?,
        })
    }

    /// Of the files that stop, so many changes are made from now on.
    pub fn allow(&self, changes: u64) {
        self.stopping.set(changes);
    }

    /// Whether no further change is made of them.
    pub fn is_spent(&self) -> bool {
        self.stopping.get() == 0
    }

    /// Those of the log.
    pub(crate) fn of_log(&self) -> Result<Rc<Cell<u64>>, AllocError> {
        match self.stops {
            Stops::Database => self.other.clone(),
            _ => self.stopping.clone(),
        }
    }

    /// Those of the database file.
    pub(crate) fn of_database(&self) -> Result<Rc<Cell<u64>>, AllocError> {
        match self.stops {
            Stops::Log => self.other.clone(),
            _ => self.stopping.clone(),
        }
    }
}
