// Laws of the definitions, each the contract of a function that does nothing.
ghost use Rattle.std.specs.Prelude.{ℕ, List};
ghost use Rattle.profile_records.specs.Records.{Record};
ghost use Rattle.profile_records.specs.Stacks.{Seen};
ghost use Rattle.cost_rows.specs.Content.{Content};
ghost use Rattle.cost_rows.specs.Held.{AreHeld};
ghost use Rattle.cost_rows.specs.KeySums.{AddUpBy};
ghost use Rattle.cost_rows.specs.Merging.{AddsUp, KeepsKeys, KeepsOrder, KeepsSums, TellsApart};
ghost use Rattle.cost_rows.specs.Naming.{with_name, KeepsNumbers, NumbersTell};
ghost use Rattle.cost_rows.specs.StackSums.{content_of_stacks, SumsToStacks};
ghost use Rattle.cost_rows.specs.Sums.{content_of_records, SumsToRecords, IsInOrder};
ghost use Rattle.cost_rows.specs.WalkSums.{WalksSum};
ghost use Rattle.cost_rows.specs.Walks.{named_cells, counted_stacks, HaveCosts, HaveCounts};
ghost use Rattle.cost_rows.specs.declared.keys.Key.{Key};
ghost use Rattle.cost_rows.specs.declared.rows.CellRow.{CellRow};

/// Equal numbers are given exactly to equal names: a number's name has that number and no other, and
/// of two names that are held, the numbers are equal exactly where the names are. A further name
/// changes no number, and no name stands twice.
pub fn numbers_tell_names_apart()
    ensures apart { (names : List (List ℕ)) → NumbersTell names }
    ensures kept { (names : List (List ℕ)) (new : List ℕ) → KeepsNumbers names (with_name new names) }
{}

/// Merging keeps each sum: for every test of keys and every measure that adds up, the sum over the
/// merged entries is the sum before and that of the amounts. The keys stay in order, each once, and
/// are those before and those of the amounts. The order is one that tells different keys apart.
pub fn merging_keeps_each_sum<K: Ord, X>()
    ensures sums { TellsApart K.cmp → (add : X → X → X) (measure : X → ℕ) → AddsUp add measure → KeepsSums K.cmp add measure }
    ensures order { (add : X → X → X) → KeepsOrder K.cmp add }
    ensures keys { TellsApart K.cmp → (add : X → X → X) → KeepsKeys K.cmp add }
{}

/// The rows of merged records sum to what the records sum to: for every test of places by their
/// names and each column, the self records; for every test of calls, the call records and their
/// counts, and calls are there exactly where call records are. Each key stands once, in order, and no
/// name stands twice.
pub fn rows_sum_to_the_records()
    ensures sums { (records : List Record) → SumsToRecords (content_of_records records) records }
    ensures order { (records : List Record) → IsInOrder (content_of_records records) }
{}

/// The rows of merged stacks sum to what the stacks count: for every test of places by their names,
/// the cells, to what the functions that were running count; for every test of frames, the stacks, to
/// what they count themselves. Each key stands once, in order, and no name stands twice.
pub fn rows_sum_to_the_stacks()
    ensures sums { (seen : List Seen) → SumsToStacks (content_of_stacks seen) seen }
    ensures order { (seen : List Seen) → IsInOrder (content_of_stacks seen) }
{}

/// Each number of the rows of a file represents a name of the file.
pub fn rows_have_their_names()
    ensures records { (records : List Record) → AreHeld (content_of_records records) }
    ensures stacks { (seen : List Seen) → AreHeld (content_of_stacks seen) }
{}

/// What is walked sums to what is held: for every test of places by their names and each event, the
/// rows of cells; for every test of calls, their rows and how many there were, and whether there are
/// any; for every test of frames, the rows of stacks. No row of a cell or of a stack is 0.
pub fn walked_rows_sum_to_the_sums()
    ensures sums { (c : Content) → WalksSum c }
    ensures above { (c : Content) → HaveCosts (named_cells c.names c.cells) × HaveCounts (counted_stacks c.stacks) }
{}

/// What rows that are added one after another sum to: for every test of the parts of places that a
/// key tells, the sums of the parts that pass are what the rows cost there. Each part stands once, in
/// order, with a sum above 0.
pub fn rows_add_up_by_key()
    ensures { (key : Key) (rows : List (CellRow (List ℕ))) → AddUpBy key rows }
{}
