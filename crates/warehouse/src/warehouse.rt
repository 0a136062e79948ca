// The warehouse.
ghost use Rattle.std.specs.Prelude.{◌≡◌, ◌-◌, ◌^◌};

use histories::Limits;
use run_stores::RunStore;

/// A store of runs under limits, and how many bytes the text of an answer may have. It keeps no file and no history.
#[derive(Drop)]
pub struct Warehouse<S: RunStore> {
    pub(crate) store: S,
    pub(crate) limits: Limits,
    pub(crate) most: usize,
}

impl<S: RunStore> Warehouse<S> {
    /// A warehouse over a store, whose answers may be of any length. Takes no memory.
    pub fn new(store: S, limits: Limits) -> Warehouse<S>
        ensures store { result.store ≡ store }
        ensures limits { result.limits ≡ limits }
        ensures most { result.most ≡ 2 ^ 64 - 1 }
    {
        let most = usize::MAX;
        Warehouse {
            store,
            limits,
            most,
        }
    }

    /// The same, where the text of an answer has at most so many bytes: of a longer one it is said that there is no
    /// memory for it, and no more than its first bytes are held for that.
    pub fn with_most(self, most: usize) -> Warehouse<S>
        ensures store { result.store ≡ self.store }
        ensures limits { result.limits ≡ self.limits }
        ensures most { result.most ≡ most }
    {
        let Warehouse { store, limits, .. } = self;
        Warehouse {
            store,
            limits,
            most,
        }
    }

    /// How many bytes the text of an answer may have.
    pub fn most(&self) -> usize
        ensures { result ≡ self.now.most }
    {
        self.most
    }

    /// The limits.
    pub fn limits(&self) -> Limits
        ensures { result ≡ self.now.limits }
    {
        self.limits
    }

    /// Hands the store back as it stands.
    pub fn into_store(self) -> S
        ensures { result ≡ self.store }
    {
        let Warehouse { store, .. } = self;
        store
    }
}
