// Each change of the tables keeps the order of their rows: a law of the definitions, the contract of a function that
// does nothing.
ghost use Rattle.std.specs.Prelude.{ℕ, List};
ghost use Rattle.cg_formulas.specs.declared.heads.FileHead.{FileHead};
ghost use Rattle.cost_rows.specs.Content.{Content};
ghost use Rattle.plain_tables.specs.Changes.{joined, named, with_baseline, with_group, without_group, without_member, without_run};
ghost use Rattle.plain_tables.specs.Sound.{AreSound};
ghost use Rattle.plain_tables.specs.Tables.{Tables, new_tables};
ghost use Rattle.run_stores.specs.BookRuns.{with_file};
ghost use Rattle.profile_records.specs.declared.kinds.Kind.{Kind};
ghost use Rattle.run_stores.specs.Order.{AreInOrder};

/// New tables are in order, and each change keeps them so: a file that is inserted under the next number, a run that
/// is removed, a name more, and the changes of groups.
pub fn changes_keep_the_order()
    ensures new { AreInOrder new_tables }
    ensures inserted { (kind : Kind) (digest label : List ℕ) (head : FileHead) (c : Content) (t : Tables) → AreSound t → AreInOrder t
        → AreInOrder (with_file t.next kind digest label head c t) }
    ensures removed { (n : ℕ) (t : Tables) → AreInOrder t → AreInOrder (without_run n t) }
    ensures named { (name : List ℕ) (t : Tables) → AreInOrder t → AreInOrder (named name t) }
    ensures made { (name : List ℕ) (t : Tables) → AreInOrder t → AreInOrder (with_group name t) }
    ensures dropped { (name : List ℕ) (t : Tables) → AreInOrder t → AreInOrder (without_group name t) }
    ensures joined { (name : List ℕ) (n : ℕ) (t : Tables) → AreInOrder t → AreInOrder (joined name n t) }
    ensures left { (name : List ℕ) (n : ℕ) (t : Tables) → AreInOrder t → AreInOrder (without_member name n t) }
    ensures based { (name : List ℕ) (n : ℕ) (t : Tables) → AreInOrder t → AreInOrder (with_baseline name n t) }
{}
