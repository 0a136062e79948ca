// Laws of the definitions, each the contract of a function that does nothing.
ghost use Rattle.std.specs.Prelude.{◌≡◌, ℕ, List, [], fold, map, IsPermutation};
ghost use Rattle.std.specs.List.{AllByRecursion};
ghost use Rattle.cost_rows.specs.KeySums.{sums_by};
ghost use Rattle.cost_rows.specs.declared.keys.Key.{Key};
ghost use Rattle.cost_rows.specs.declared.rows.CellRow.{CellRow};
ghost use Rattle.run_stores.specs.Book.{IsHeld};
ghost use Rattle.selected_runs.specs.Named.{named_sum};
ghost use Rattle.selected_runs.specs.Sums.{number_rows, numbers_told, with_number};
ghost use Rattle.plain_tables.specs.Tables.{NameRow};
ghost use Rattle.run_stores.specs.Names.{named_cell, AreApart};

/// Rows that are added up by the numbers of their names, and named then, have the sums of the rows that are
/// named first, whatever the names and the key.
pub fn named_sums_are_those_of_the_rows()
    ensures { (names : List NameRow) (key : Key) (rows : List (CellRow ℕ))
        → sums_by key (map (named_cell names) (number_rows (fold with_number (record { key = key; sums = [] }) rows).sums))
        ≡ sums_by key (map (named_cell names) rows) }
{}

/// Where each name is held once, no two sums by number have one place by names: named, they are the sums of the
/// rows that are named first, in another order. So names are asked for only of those that are shown.
pub fn once_named_sums_are_those_of_the_rows()
    ensures { (names : List NameRow) (key : Key) (rows : List (CellRow ℕ))
        → let sums = (fold with_number (record { key = key; sums = [] }) rows).sums in
        AreApart names → AllByRecursion (IsHeld names) (numbers_told key sums)
        → IsPermutation (map (named_sum names key) sums) (sums_by key (map (named_cell names) rows)) }
{}
