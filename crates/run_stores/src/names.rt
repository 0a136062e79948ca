// The names that a store holds, by number.

/// Names by number, those of a store.
pub trait NameTable {
    ghost use Rattle.std.specs.Prelude.{◌≡◌, List, None, IfSome};
    ghost use Rattle.plain_tables.specs.Tables.{NameRow};
    ghost use Rattle.run_stores.specs.Book.{name_of, IsHeld};

    /// The names as rows.
    ghost name_rows: { Self → List NameRow };

    /// The name of a number, if there is one. Takes no memory.
    fn name(&self, number: u32) -> Option<&[u8]>
        ensures none { result ≡ None → ¬ (IsHeld (name_rows self.now) number) }
        ensures some { IfSome result (λ name. IsHeld (name_rows self.now) number × (name.now ≡ name_of (name_rows self.now) number)) };
}
