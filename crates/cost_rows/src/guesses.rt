// The numbers that a stack's names are thought to have.

use crate::names::Names;
use crate::places::{CellPlace, Place};
use std::alloc::{AllocError, Global};

/// The place of no stack.
const NOWHERE: Place = Place {
    object: 0,
    file: 0,
    function: 0,
    line: 0,
};

/// The cell of no place.
pub(crate) const NO_CELL: CellPlace = CellPlace {
    place: NOWHERE,
    thread: 0,
};

/// The place of the last stack, and that of the last stack of each function that was running, by the
/// number of its name. No guarantee speaks of them: whoever takes a guess compares it with the stack's
/// names first.
#[derive(Drop)]
pub(crate) struct Guesses {
    recent: Place,
    by_function: Vec<Place>,
}

impl Guesses {
    /// No place is kept. Takes no memory. No guarantee: a guess may be any place.
    pub(crate) fn new(alloc: Global) -> Guesses {
        Guesses {
            recent: NOWHERE,
            by_function: Vec::new(alloc),
        }
    }

    /// The place that a stack of a function is thought to have. No guarantee: a wrong one costs time.
    pub(crate) fn guess(&self, names: &Names, function: &[u8]) -> Place {
        let recent = self.recent;
        if (recent.function as usize) < names.len() && names.name(recent.function) == function {
            return recent;
        }
        let Some(number) = names.find(function) else {
            return recent;
        };
        let kept = self.by_function.get(number as usize).copied();
        Place {
            function: number,
            ..kept.unwrap_or(recent)
        }
    }

    /// Keeps the place of a stack. No guarantee: a guess may be any place.
    pub(crate) fn keep(&mut self, place: Place) -> Result<(), AllocError> {
        let function = place.function as usize;
        if self.by_function.len() <= function {
            self.by_function.resize(function + 1, NOWHERE)?;
        }
        self.by_function[function] = place;
        self.recent = place;
        Ok(())
    }
}
