// The numbers of the names of a stack.
ghost use Rattle.std.specs.Prelude.{◌≡◌, IfOk};
ghost use Rattle.cost_rows.specs.Content.{with_three, place_in};
ghost use Rattle.cost_rows.specs.Growing.{Grows};
ghost use Rattle.cost_rows.specs.Naming.{GivesNumber};

use crate::names::Names;
use crate::places::Place;
use std::alloc::AllocError;

/// The number of a name, which is held from now on: the one that it is thought to have costs no
/// look-up. A refusal leaves the names as they were.
pub(crate) fn number(names: &mut Names, guess: u32, name: &[u8]) -> Result<u32, AllocError>
    ensures { GivesNumber name.now names.old result names.new }
{
    if (guess as usize) < names.len() && names.name(guess) == name {
        return Ok(guess);
    }
    names.id_of(name)
}

/// The place of a stack, whose names are held from now on; a refusal may leave some of them.
pub(crate) fn number_place(
    names: &mut Names,
    guess: Place,
    object: &[u8],
    file: &[u8],
    function: &[u8],
    line: u64,
) -> Result<Place, AllocError>
    ensures names { IfOk result (λ _. names.new ≡ with_three object.now file.now function.now names.old) }
    ensures place { IfOk result (λ p. p ≡ place_in names.new object.now file.now function.now line) }
    ensures grows { Grows names.old names.new }
{
    let object = number(names, guess.object, object)?;
    let file = number(names, guess.file, file)?;
    let function = number(names, guess.function, function)?;
    Ok(Place {
        object,
        file,
        function,
        line,
    })
}
