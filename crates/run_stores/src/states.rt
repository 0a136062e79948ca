// What a store is, for contracts alone (specs/Calls.antt).

/// A store between calls, and what a crash may leave of it.
pub trait StoreState {
    ghost use Rattle.std.specs.Prelude.{ℕ, Bool, IsTrue};
    ghost use Rattle.plain_tables.specs.Sound.{AreSound};
    ghost use Rattle.plain_tables.specs.Tables.{Tables};
    ghost use Rattle.run_stores.specs.Names.{AreApart};

    /// All that it keeps.
    ghost Kept: { Type 0 };

    /// What it keeps now.
    ghost kept: { Self → Kept };

    /// That it is between calls, by what it keeps, whatever that is.
    ghost is_settled: { Kept → Type 0 };

    /// What a crash may leave.
    ghost Left: { Type 0 };

    /// What is left holds these rows: a store that is opened over it represents them.
    ghost holds: { Tables → Left → Type 0 };

    /// What a crash may leave now.
    ghost may_leave: { Self → Left → Type 0 };

    /// Between calls it represents these rows, and so does what it last made lasting.
    ghost represents: { Tables → Self → Type 0 };

    /// What it keeps is read as these rows, whoever wrote it.
    ghost reads_as: { Tables → Self → Type 0 };

    /// So far what was written is what was read.
    ghost is_faithful: { Self → Type 0 };

    /// False once it has failed for good: then each call fails.
    ghost is_usable: { Self → Bool };

    /// How often what keeps it has failed.
    ghost faults: { Self → ℕ };

    /// It can grow no more: a read of what keeps it may name this as a cause too.
    ghost is_full: { Self → Type 0 };

    /// What stands can be used.
    ghost usable: { (t : Tables) (store : Self) → represents t store → IsTrue (is_usable store) };

    /// It is read as the rows that it represents.
    ghost said: { (t : Tables) (store : Self) → represents t store → reads_as t store };

    /// What is read can be used.
    ghost readable: { (t : Tables) (store : Self) → reads_as t store → IsTrue (is_usable store) };

    /// What is read has each name under one number.
    ghost apart: { (t : Tables) (store : Self) → reads_as t store → AreApart t.names };

    /// The rows that it represents are sound.
    ghost sound: { (t : Tables) (store : Self) → represents t store → AreSound t };

    /// So are those that a crash leaves.
    ghost left_sound: { (t : Tables) (left : Left) → holds t left → AreSound t };
}
