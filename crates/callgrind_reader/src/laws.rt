// Laws of the definitions, each the contract of a function that does nothing.
ghost use Rattle.std.specs.Prelude.{◌≡◌, ℕ, List, [], ◌++◌};
ghost use Rattle.cg_text.specs.Readings.{Reading};
ghost use Rattle.text_pieces.specs.Backwards.{onto, IsPrefix};
ghost use Rattle.callgrind_reader.specs.declared.reader.Reader.{Reader};
ghost use Rattle.profile_records.specs.Records.{Record};
ghost use Rattle.callgrind_reader.specs.Files.{first_fault, fault_in, sound_records, records_of_file};
ghost use Rattle.callgrind_reader.specs.Accept.{line_fault_after, fault_after, handed_on};
ghost use Rattle.callgrind_reader.specs.Cut.{records_so_far};
ghost use Rattle.callgrind_reader.specs.Reads.{Reads};

/// What can be told of some lines by looking back from their end is what the format says of them,
/// where a `calls=` line looks ahead: the first fault of a line, the first fault of all, where those
/// of formulas come last, and the records before the first fault of a line.
pub fn looking_back_is_exact()
    ensures line_fault { (rs : List Reading) → first_fault [] rs ≡ line_fault_after (onto rs []) }
    ensures fault { (rs : List Reading) → fault_in rs ≡ fault_after (onto rs []) }
    ensures records { (rs : List Reading) → sound_records [] rs ≡ handed_on (onto rs []) }
{}

/// What a reader has handed on at any moment are exactly the records of the lines that end in a
/// line feed, before the first with a fault of its own; and they come first among the records of
/// the file, however it goes on.
pub fn handed_on_at_each_moment()
    ensures exact { (r : Reader) (text : List ℕ) (told : List Record) → Reads r text told → told ≡ records_so_far text }
    ensures prefix { (r : Reader) (text bytes : List ℕ) (told : List Record) → Reads r text told → IsPrefix told (records_of_file (text ++ bytes)) }
{}
