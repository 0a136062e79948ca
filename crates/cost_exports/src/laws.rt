// Laws of the definitions, each the contract of a function that does nothing.
ghost use Rattle.std.specs.Prelude.{◌≡◌, ℕ, ◌+◌, List, [], ◌∷◌, fold, map};
ghost use Rattle.csv.specs.Reading.{default_config, records};
ghost use Rattle.cost_rows.specs.declared.rows.StackRow.{StackRow};
ghost use Rattle.report_texts.specs.Costs.{EventCells, EventRecords, StandForEach, all_rows};
ghost use Rattle.report_texts.specs.Inclusive.{SameStacks};
ghost use Rattle.profile_records.specs.Stacks.{Seen};
ghost use Rattle.report_texts.specs.Annotations.{HaveCostsEach, annotation_of, annotation_of_records, cost_of_lines, know_file, no_lines, with_line};
ghost use Rattle.report_texts.specs.Csv.{EventSpot, NamedCells, NamedRecords, NamesStandForEach, csv_fields, csv_header, csv_of_cells, csv_of_records, csv_text};
ghost use Rattle.report_texts.specs.Folded.{folded_of_rows, folded_of_stacks, folded_text};
ghost use Rattle.cost_exports.specs.ReadBack.{AreReadable, ReadsBackAs};

/// What the lines of a source cost, and what is outside, sum to the total, whatever the source.
pub fn shown_and_outside_are_the_total()
    ensures { (file source : List ℕ) (costs : List (ℕ × ℕ)) → let a = annotation_of file source costs in cost_of_lines a.lines + a.outside ≡ a.total }
{}

/// Where the cells of each run sum to the self records of its file, for every test of places and each
/// column, the lines of a source cost by the rows of the cells what they cost by the records.
pub fn annotations_sum_to_the_records()
    ensures { (file source : List ℕ) (files : List EventRecords) (runs : List EventCells) → StandForEach files runs
        → annotation_of file source (fold with_line (no_lines file) (all_rows runs)).costs ≡ annotation_of_records file source files }
{}

/// And where no cell is 0, a row of the file came exactly where a self record of it costs something in
/// some column.
pub fn files_are_known_by_their_rows()
    ensures { (file : List ℕ) (files : List EventRecords) (runs : List EventCells) → StandForEach files runs → HaveCostsEach runs
        → (fold with_line (no_lines file) (all_rows runs)).known ≡ know_file file files }
{}

/// Where the cells of each run sum to the self records of its file, what places cost by the names of
/// events is by the cells what it is by the records, whatever the columns.
pub fn csv_rows_sum_to_the_records()
    ensures { (files : List NamedRecords) (runs : List NamedCells) → NamesStandForEach files runs → csv_of_cells runs ≡ csv_of_records files }
{}

/// The text of what places cost is read by the crate `csv`, with its defaults, as the header and these rows
/// with their fields, whatever bytes the names have.
pub fn csv_texts_read_back()
    ensures { (sums : List (EventSpot × ℕ)) → records default_config (csv_text sums) ≡ csv_header ∷ map csv_fields sums }
{}

/// Where rows of stacks sum to the stacks that were seen, for every test of their frames, they are the
/// same stacks with the same counts.
pub fn folded_stacks_sum_to_the_stacks()
    ensures { (rows : List (StackRow (List ℕ))) (seen : List Seen) → SameStacks rows seen → folded_of_rows rows ≡ folded_of_stacks seen }
{}

/// The text of stacks is accepted as a folded file, and is read as these stacks with these counts, line by
/// line: of stacks of one byte or more and without a line feed, of counts from 1 to 2^63-1, and of lines
/// that are not too long.
pub fn folded_texts_read_back()
    ensures { (stacks : List (List ℕ × ℕ)) → AreReadable stacks → ReadsBackAs (folded_text stacks) stacks }
{}
