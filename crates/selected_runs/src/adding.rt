// Runs of a store, added one after another: the one loop over the runs of a selection, but for that of `number_runs` of
// store_reports.
ghost use Rattle.std.specs.Result.{is_ok};
ghost use Rattle.run_stores.specs.Calls.{Told, AsksIfOpen};
ghost use Rattle.selected_runs.specs.Added.{AreAdded};

use run_stores::{RunStore, StoreError};

/// Adds runs to what was made of those before.
pub trait RunFold<S: RunStore> {
    ghost use Rattle.std.specs.Result.{is_ok};
    ghost use Rattle.plain_tables.specs.Tables.{Tables};
    ghost use Rattle.run_stores.specs.Calls.{Told, AsksIfOpen};

    /// What names a run: its number, or what is known of it.
    type Run;

    /// What is made of runs.
    type Sums;

    /// What a run of the tables makes of what there was.
    ghost Step: { Self → Tables → Self.Run → Self.Sums → Self.Sums → Type 0 };

    /// Adds a run. An error ends the loop.
    fn add(
        &self,
        store: &mut S,
        run: &Self::Run,
        sums: Self::Sums,
    ) -> Result<Self::Sums, StoreError>
        ensures told { Told S.StoreState result store.old store.new (λ t all. Step self.now t run.now sums all) }
        ensures asks { AsksIfOpen S.StoreState (is_ok result) store.old store.new };
}

/// Adds runs, one after another.
pub fn fold_runs<S: RunStore, A: RunFold<S>>(
    store: &mut S,
    adder: &A,
    runs: &[A::Run],
    sums: A::Sums,
) -> Result<A::Sums, StoreError>
    ensures told { Told S.StoreState result store.old store.new (λ t all. AreAdded (A.Step adder.now t) runs.now sums all) }
    ensures asks { AsksIfOpen S.StoreState (is_ok result) store.old store.new }
{
    let mut sums = sums;
    for run in runs {
        sums = adder.add(store, run, sums)?;
    }
    Ok(sums)
}
