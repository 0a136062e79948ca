// What takes rows, and what takes entries.

/// Takes the rows of a table, one at a time.
pub trait RowSink {
    ghost use Rattle.std.specs.Prelude.{◌≡◌, ◌++◌, ◌∷◌, [], List, Ok, true, false, IfErr};
    ghost use Rattle.sqlite_value.specs.Order.{Row};
    ghost use Rattle.sqlite_store.specs.Db.{table_row};

    /// Why a row may be refused.
    type Refusal: Drop;

    /// What it can begin with.
    ghost Start: { Type 0 };

    /// It began with this, has taken these rows, and wants more.
    ghost Has: { Start → List Row → Self → Type 0 };

    /// It began with this, has taken these rows, and wants no more.
    ghost Ends: { Start → List Row → Self → Type 0 };

    /// Whether a row may be refused, and why.
    ghost Refuses: { Row → Self.Refusal → Type 0 };

    /// Takes a row: its rowid, and the bytes of its record, which `sqlite_record::fields` reads in place.
    /// Says whether it wants more. An error ends the walk, and nothing is said of what was taken then.
    fn take(&mut self, rowid: i64, payload: &[u8]) -> Result<bool, Self::Refusal>
        ensures more { result ≡ Ok true → (start : Start) (rows : List Row) → Has start rows self.old
            → Has start (rows ++ table_row (rowid, payload.now) ∷ []) self.new }
        ensures last { result ≡ Ok false → (start : Start) (rows : List Row) → Has start rows self.old
            → Ends start (rows ++ table_row (rowid, payload.now) ∷ []) self.new }
        ensures refuses { IfErr result (Refuses (table_row (rowid, payload.now))) };
}

/// Takes the entries of an index, one at a time.
pub trait EntrySink {
    ghost use Rattle.std.specs.Prelude.{◌≡◌, ◌++◌, ◌∷◌, [], List, Ok, true, false, IfErr};
    ghost use Rattle.sqlite_value.specs.Order.{Row};
    ghost use Rattle.sqlite_record.specs.Record.{decode};

    /// Why an entry may be refused.
    type Refusal: Drop;

    /// What it can begin with.
    ghost Start: { Type 0 };

    /// It began with this, has taken these entries, and wants more.
    ghost Has: { Start → List Row → Self → Type 0 };

    /// It began with this, has taken these entries, and wants no more.
    ghost Ends: { Start → List Row → Self → Type 0 };

    /// Whether an entry may be refused, and why.
    ghost Refuses: { Row → Self.Refusal → Type 0 };

    /// Takes an entry: the bytes of its record, which `sqlite_record::fields` reads in place.
    /// Says whether it wants more. An error ends the walk, and nothing is said of what was taken then.
    fn take(&mut self, payload: &[u8]) -> Result<bool, Self::Refusal>
        ensures more { result ≡ Ok true → (start : Start) (entries : List Row) → Has start entries self.old
            → Has start (entries ++ decode payload.now ∷ []) self.new }
        ensures last { result ≡ Ok false → (start : Start) (entries : List Row) → Has start entries self.old
            → Ends start (entries ++ decode payload.now ∷ []) self.new }
        ensures refuses { IfErr result (Refuses (decode payload.now)) };
}
