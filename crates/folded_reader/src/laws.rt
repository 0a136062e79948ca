// Laws of the definitions, each the contract of a function that does nothing.
ghost use Rattle.std.specs.Prelude.{◌≡◌, ℕ, List, [], ◌∷◌, ◌++◌};
ghost use Rattle.text_pieces.specs.Backwards.{onto, handed_on, IsPrefix};
ghost use Rattle.folded_reader.specs.declared.reader.FoldedReader.{FoldedReader};
ghost use Rattle.folded_reader.specs.Lines.{Reading};
ghost use Rattle.profile_records.specs.Frames.{functions_of, leaf_of};
ghost use Rattle.profile_records.specs.Stacks.{Seen};
ghost use Rattle.folded_reader.specs.Files.{stacks_from, fault_from, stacks_of_file};
ghost use Rattle.folded_reader.specs.Looking.{seen, adds};
ghost use Rattle.folded_reader.specs.Reads.{Reads, stacks_so_far};

/// What can be told of some lines by looking back from their end is what the format says of them:
/// the first fault, and the stacks before it.
pub fn looking_back_is_exact()
    ensures fault { (rs : List Reading) → fault_from 1 rs ≡ seen (onto rs []) }
    ensures stacks { (rs : List Reading) → stacks_from 1 rs ≡ handed_on adds (onto rs []) }
{}

/// What a reader has handed on at any moment are exactly the stacks of the lines that end in a line
/// feed, before the first with a fault; and they come first among the stacks of the file, however it
/// goes on.
pub fn handed_on_at_each_moment()
    ensures exact { (r : FoldedReader) (text : List ℕ) (told : List Seen) → Reads r text told → told ≡ stacks_so_far text }
    ensures prefix { (r : FoldedReader) (text bytes : List ℕ) (told : List Seen) → Reads r text told → IsPrefix told (stacks_of_file (text ++ bytes)) }
{}

/// The function that was running is the last of the functions of a stack, of which there is one at
/// least.
pub fn the_leaf_is_the_last_function()
    ensures { (frames : List ℕ) → (callers : List (List ℕ)) × (functions_of frames ≡ callers ++ leaf_of frames ∷ []) }
{}
