// What each change of the tables makes of the book: laws of the definitions, each the contract of a
// function that does nothing.
ghost use Rattle.std.specs.Prelude.{◌≡◌, ℕ, List};
ghost use Rattle.cg_formulas.specs.declared.heads.FileHead.{FileHead};
ghost use Rattle.cost_rows.specs.Content.{Content};
ghost use Rattle.cost_rows.specs.declared.rows.ArcRow.{ArcRow};
ghost use Rattle.plain_tables.specs.Changes.{without_run};
ghost use Rattle.plain_tables.specs.Tables.{Tables, GroupRow, MemberRow, new_tables};
ghost use Rattle.run_stores.specs.Book.{CallPart, IsNamed, book_of, new_book, regrouped, regrouped_book, without_run_book};
ghost use Rattle.run_stores.specs.Parts.{AreOfRows, AreWhole, PartsSum};
ghost use Rattle.run_stores.specs.BookRuns.{filed, Filed, GoesInBook, IsOfItsRun};
ghost use Rattle.profile_records.specs.declared.kinds.Kind.{Kind};

/// A file that is written under the next number is in the book as what it says of itself and as its
/// rows, names in place; the runs before it are as they were.
pub fn a_file_is_in_the_book()
    ensures { (f : Filed) → IsOfItsRun f → GoesInBook f }
{}

/// A file that is inserted under the next number is in the book with its head and its rows, names in place,
/// and the runs before it are as they were. `content_of` the rows of a file has each number's name
/// (`rows_have_their_names` of `cost_rows`).
pub fn an_inserted_file_is_in_the_book()
    ensures { (number : ℕ) (kind : Kind) (digest label : List ℕ) (head : FileHead) (c : Content) → GoesInBook (filed number kind digest label head c) }
{}

/// A run that is dropped is in the book no more; the other runs are as they were.
pub fn a_dropped_run_leaves_the_book()
    ensures book { (n : ℕ) (t : Tables) → book_of (without_run n t) ≡ without_run_book n (book_of t) }
    ensures named { (n : ℕ) (t : Tables) → IsNamed t → IsNamed (without_run n t) }
{}

/// Changes of groups and members leave the runs of the book as they were, and a new store has none.
pub fn groups_leave_the_runs()
    ensures book { (gs : List GroupRow) (ms : List MemberRow) (t : Tables) → book_of (regrouped gs ms t) ≡ regrouped_book gs ms (book_of t) }
    ensures named { (gs : List GroupRow) (ms : List MemberRow) (t : Tables) → IsNamed t → IsNamed (regrouped gs ms t) }
    ensures new { book_of new_tables ≡ new_book }
    ensures new_named { IsNamed new_tables }
{}

/// The parts of rows of calls sum to what the rows sum to, for every test of calls: part 0 to how
/// many they are, part k + 1 to what they cost in column k. So rows of equal parts have equal sums. A
/// part 0 that passes is there exactly where a row is, of whatever number and cost. No part stands
/// without its part 0, and none but a part 0 is 0.
pub fn parts_sum_to_the_calls()
    ensures whole { (parts : List CallPart) → AreOfRows parts → AreWhole parts }
    ensures sums { (rows : List (ArcRow (List ℕ) (List ℕ))) → PartsSum rows }
{}
