// The numbers of the names that a record is lent with.
ghost use Rattle.std.specs.Prelude.{◌≡◌, List, ℕ, IfOk, OnOk, Some, None, take};
ghost use Rattle.cg_text.specs.declared.words.Namespace.{Namespace};
ghost use Rattle.profile_records.specs.Marks.{Agrees, names_tell};
ghost use Rattle.profile_records.specs.declared.marks.Mark.{Mark};
ghost use Rattle.cost_rows.specs.Content.{with_three, place_in};
ghost use Rattle.cost_rows.specs.Growing.{Grows};
ghost use Rattle.cost_rows.specs.Marks.{AreNamed, HaveNames, known_at, known_by, LearnsName, LearnsNames, marks_in, number_at};
ghost use Rattle.cost_rows.specs.Naming.{place_of, with_name};

use crate::marks::{Marks, SpaceMarks};
use crate::names::Names;
use crate::places::Place;
use profile_records::{LentName, LentNames};
use std::alloc::AllocError;

/// The number of a name, which is held from now on. A mark whose number is kept costs no look at the
/// name. A refusal may leave the name.
fn number_lent(
    names: &mut Names,
    marks: &mut SpaceMarks,
    name: LentName<'_>,
) -> Result<u32, AllocError>
    requires named { AreNamed names.old marks.old }
    requires same { (text : List ℕ) → known_at names.old marks.old name.mark ≡ Some text → text ≡ name.text.now }
    ensures number { IfOk result (λ n. place_of name.entry.text.now names.new ≡ Some n) }
    ensures names { OnOk result (names.new ≡ with_name name.entry.text.now names.old) }
    ensures grows { Grows names.old names.new }
    ensures learns { OnOk result (LearnsName names.old marks.old name.entry names.new marks.new) }
{
    let _held = names.len();
    if let Some(number) = marks.find(name.mark) {
        return Ok(number);
    }
    let number = names.id_of(name.text)?;
    marks.keep(name.mark, number)?;
    Ok(number)
}

/// The place of a record, whose names are held from now on; a refusal may leave some of them.
pub(crate) fn place_lent(
    names: &mut Names,
    marks: &mut Marks,
    lent: LentNames<'_>,
    line: u64,
) -> Result<Place, AllocError>
    requires named { HaveNames names.old marks.old }
    requires agrees { Agrees (known_by names.old marks.old) (names_tell lent) }
    ensures names { OnOk result (names.new ≡ with_three lent.entry.object.text.now lent.entry.file.text.now lent.entry.function.text.now names.old) }
    ensures place { IfOk result (λ p. p ≡ place_in names.new lent.entry.object.text.now lent.entry.file.text.now lent.entry.function.text.now line) }
    ensures grows { Grows names.old names.new }
    ensures learns { OnOk result (LearnsNames names.old marks.old (names_tell lent.entry) names.new marks.new) }
{
    let object = number_lent(names, &mut marks.objects, lent.object)?;
    let file = number_lent(names, &mut marks.files, lent.file)?;
    let function = number_lent(names, &mut marks.functions, lent.function)?;
    Ok(Place {
        object,
        file,
        function,
        line,
    })
}

/// Takes back the names after the first so many, those of a record that was refused. No mark is known
/// then.
pub(crate) fn take_back(names: &mut Names, marks: &mut Marks, count: usize)
    ensures names { names.new ≡ take count names.old }
    ensures marks { (space : Namespace) (mark : Mark) → number_at (marks_in marks.new space) mark ≡ None }
{
    names.truncate(count);
    marks.forget();
}
