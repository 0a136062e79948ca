// The numbers of names, by the marks that the names came with.
ghost use Rattle.std.specs.Prelude.{◌≡◌, ℕ, ◌≤◌, List, OnOk, Some, None, vec_len};
ghost use Rattle.cost_rows.specs.Marks.{number_held, number_counted};

use profile_records::Mark;
use std::alloc::{AllocError, Global};

/// The number of a name without an identifier, and how many such names had come with it.
#[derive(Clone, Copy)]
pub(crate) struct PlainNumber {
    count: u64,
    number: u32,
}

/// The numbers of the names of a name space by their marks: of those that have a place, and of the
/// last ones without an identifier, in force and called.
#[derive(Drop)]
pub(crate) struct SpaceMarks {
    held: Vec<Option<u32>>,
    own: Option<PlainNumber>,
    called: Option<PlainNumber>,
}

/// The numbers of names by their marks, in each name space.
#[derive(Drop)]
pub(crate) struct Marks {
    pub(crate) objects: SpaceMarks,
    pub(crate) files: SpaceMarks,
    pub(crate) functions: SpaceMarks,
}

/// The number that is kept, if it is that of a name that came so.
fn number_counted(kept: Option<PlainNumber>, count: u64) -> Option<u32>
    ensures { result ≡ number_counted kept count }
{
    match kept {
        Some(plain) if plain.count == count => Some(plain.number),
        _ => None,
    }
}

/// Gives numbers that are not kept to further places, until there are so many.
fn lengthen(numbers: &mut Vec<Option<u32>>, count: usize) -> Result<(), AllocError>
    ensures long { OnOk result (count ≤ vec_len numbers.new) }
    ensures same { (place : ℕ) → number_held numbers.new.items place ≡ number_held numbers.old.items place }
{
    while numbers.len() < count {
        numbers.push(None)?;
    }
    Ok(())
}

impl SpaceMarks {
    ghost use Rattle.profile_records.specs.declared.marks.Mark.{Mark};
    ghost use Rattle.cost_rows.specs.Marks.{number_at, KeepsMark};

    /// No number is kept. Takes no memory.
    fn new(alloc: Global) -> SpaceMarks
        ensures { (mark : Mark) → number_at result mark ≡ None }
    {
        SpaceMarks {
            held: Vec::new(alloc),
            own: None,
            called: None,
        }
    }

    /// The number that is kept of a mark.
    pub(crate) fn find(&self, mark: Mark) -> Option<u32>
        ensures { result ≡ number_at self.now mark }
    {
        match mark {
            Mark::Held(place) => match self.held.get(place) {
                Some(number) => *number,
                None => None,
            },
            Mark::Own(count) => number_counted(self.own, count),
            Mark::Called(count) => number_counted(self.called, count),
            Mark::Unnamed => None,
        }
    }

    /// Keeps the number of the name at a place.
    fn keep_held(&mut self, place: usize, number: u32) -> Result<(), AllocError>
        ensures { KeepsMark (Mark.Held place) number self.old self.new }
    {
        let count = place.checked_add(1).ok_or(AllocError)?;
        lengthen(&mut self.held, count)?;
        self.held[place] = Some(number);
        Ok(())
    }

    /// Keeps the number of the name that came with a mark, in place of an earlier one where neither
    /// has an identifier.
    pub(crate) fn keep(&mut self, mark: Mark, number: u32) -> Result<(), AllocError>
        ensures { KeepsMark mark number self.old self.new }
    {
        match mark {
            Mark::Held(place) => self.keep_held(place, number)?,
            Mark::Own(count) => self.own = Some(PlainNumber { count, number }),
            Mark::Called(count) => self.called = Some(PlainNumber { count, number }),
            Mark::Unnamed => {}
        }
        Ok(())
    }

    /// Keeps no number any more.
    fn forget(&mut self)
        ensures { (mark : Mark) → number_at self.new mark ≡ None }
    {
        self.held.clear();
        self.own = None;
        self.called = None;
    }
}

impl Marks {
    ghost use Rattle.profile_records.specs.declared.marks.Mark.{Mark};
    ghost use Rattle.cg_text.specs.declared.words.Namespace.{Namespace};
    ghost use Rattle.cost_rows.specs.Marks.{number_at, marks_in};

    /// No number is kept. Takes no memory.
    pub(crate) fn new(alloc: Global) -> Marks
        ensures { (space : Namespace) (mark : Mark) → number_at (marks_in result space) mark ≡ None }
    {
        Marks {
            objects: SpaceMarks::new(alloc),
            files: SpaceMarks::new(alloc),
            functions: SpaceMarks::new(alloc),
        }
    }

    /// Keeps no number any more.
    pub(crate) fn forget(&mut self)
        ensures { (space : Namespace) (mark : Mark) → number_at (marks_in self.new space) mark ≡ None }
    {
        self.objects.forget();
        self.files.forget();
        self.functions.forget();
    }
}
