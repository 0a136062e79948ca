// The function whose calls are asked, by its names and by the numbers of these.
ghost use Rattle.std.specs.Prelude.{◌≡◌, IfOk};
ghost use Rattle.std.specs.Result.{is_ok};
ghost use Rattle.report_texts.specs.Functions.{function_spot};
ghost use Rattle.run_stores.specs.Calls.{Asks, Told};
ghost use Rattle.run_stores.specs.Names as names;
ghost use Rattle.store_calls.specs.KeptCalls.{has_numbers, spot_asked, IsAsked};

use run_stores::{RunStore, StoreError};
use std::alloc::Global;

/// The numbers of a function's names: a name that is not held has none.
#[derive(Clone, Copy)]
pub(crate) struct FunctionNumbers {
    pub object: Option<u32>,
    pub function: Option<u32>,
}

/// Whether a number is that of a name.
fn is_number(number: Option<u32>, other: u32) -> bool
    ensures { result ≡ names.is_number number other }
{
    match number {
        Some(number) => other == number,
        None => false,
    }
}

impl FunctionNumbers {
    /// Whether a function with names of these numbers is the one that is asked.
    pub fn are(&self, object: u32, function: u32) -> bool
        ensures { result ≡ has_numbers self.now object function }
    {
        is_number(self.object, object) && is_number(self.function, function)
    }
}

/// The function that is asked, of an object.
#[derive(Clone, Copy)]
pub(crate) struct AskedFunction<'a> {
    pub object: &'a [u8],
    pub name: &'a [u8],
    pub numbers: FunctionNumbers,
}

/// Asks for the numbers of a function's names.
pub(crate) fn asked_function<'a, S: RunStore>(
    store: &mut S,
    alloc: Global,
    object: &'a [u8],
    name: &'a [u8],
) -> Result<AskedFunction<'a>, StoreError>
    ensures function { IfOk result (λ asked. spot_asked asked ≡ function_spot object.entry.now name.entry.now) }
    ensures told { Told S.StoreState result store.old store.new (λ t asked. IsAsked t.names asked) }
    ensures asks { Asks S.StoreState (is_ok result) store.old store.new }
{
    let numbers = FunctionNumbers {
        object: store.number_of(alloc, object)?,
        function: store.number_of(alloc, name)?,
    };
    Ok(AskedFunction {
        object,
        name,
        numbers,
    })
}
