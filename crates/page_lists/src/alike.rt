// Whether two texts make tables with the same rows.
ghost use Rattle.std.specs.Prelude.{◌≡◌, Err, Ok, IfErr, IfOk, IfSome, IsTrue};
ghost use Rattle.std.specs.List.{AllZip};
ghost use Rattle.sqlite_resolve.specs.Compile.{table_defined_by};
ghost use Rattle.page_lists.specs.Alike.{is_real, AreAlike, IsSameColumn, MakeAlike, MakesLike};

use sqlite_items::Items;
use sqlite_resolve::{CompileError, define_table};
use sqlite_schema::names::same_name;
use sqlite_schema::schema::{Column, Kind, Table};
use std::alloc::{AllocError, Global};

/// The table that was made, if one was. Memory was refused where the making was refused it, and for nothing that a text
/// says.
fn table_in(made: Result<Table, CompileError>) -> Result<Option<Table>, AllocError>
    ensures made { IfOk result (λ it. IfSome it (λ table. made ≡ Ok table)) }
    ensures memory { IfErr result (λ _. made ≡ Err CompileError.OutOfMemory) }
{
    match made {
        Ok(table) => Ok(Some(table)),
        Err(CompileError::OutOfMemory) => Err(AllocError),
        Err(_) => Ok(None),
    }
}

/// The table that a text makes. `None` where it makes none.
fn table_of(alloc: Global, text: &[u8]) -> Result<Option<Table>, AllocError>
    ensures { IfOk result (λ it. IfSome it (λ table. table_defined_by text.now ≡ Ok table)) }
{
    table_in(define_table(alloc, text))
}

/// Whether a column of this kind stores whole numbers as floats, and so not as they are given.
fn is_real(kind: Kind) -> bool
    ensures { result ≡ is_real kind }
{
    matches!(kind, Kind::Real)
}

/// Whether two columns have one name and one order, and values are stored in them alike.
fn are_same_columns(a: &Column, b: &Column) -> bool
    ensures { IsTrue result → IsSameColumn a.now b.now }
{
    same_name(a.name.as_slice(), b.name.as_slice())
        && a.collation == b.collation
        && is_real(a.kind) == is_real(b.kind)
}

/// Whether two tables have the same columns, in one order.
fn have_same_columns(a: &Table, b: &Table) -> bool
    ensures { IsTrue result → AllZip IsSameColumn a.now.columns b.now.columns }
{
    let (a, b) = (a.columns.as_slice(), b.columns.as_slice());
    a.len() == b.len() && a.iter().zip(b).all(|(a, b)| are_same_columns(a, b))
}

/// Whether two lists of keys are the same.
fn are_same_keys(a: &Items<Items<usize>>, b: &Items<Items<usize>>) -> bool
    ensures { IsTrue result → a.now ≡ b.now }
{
    let (a, b) = (a.as_slice(), b.as_slice());
    a.len() == b.len() && a.iter().zip(b).all(|(a, b)| a.as_slice() == b.as_slice())
}

/// Whether two tables have rows alike, and so the indexes that they have by their keys.
fn are_alike(one: &Table, other: &Table) -> bool
    ensures { IsTrue result → AreAlike one.now other.now }
{
    have_same_columns(one, other)
        && one.key == other.key
        && are_same_keys(&one.uniques, &other.uniques)
        && one.orders.as_slice() == other.orders.as_slice()
}

/// Whether a text makes a table that is like another. (A table that is let go by a call, and not at the end, is faster to
/// prove, here and below.)
fn makes_alike(alloc: Global, table: &Table, text: &[u8]) -> Result<bool, AllocError>
    ensures { IfOk result (λ is. IsTrue is → MakesLike table.now text.now) }
{
    match table_of(alloc, text)? {
        Some(other) => {
            let is_alike = are_alike(table, &other);
            drop(other);
            Ok(is_alike)
        }
        None => Ok(false),
    }
}

/// Whether two texts make tables whose rows, and those of the indexes that they have by their keys, are the same. Types,
/// rules and references may differ: what a row says is tested where it is read.
pub(crate) fn have_same_rows(alloc: Global, one: &[u8], other: &[u8]) -> Result<bool, AllocError>
    ensures { IfOk result (λ are. IsTrue are → MakeAlike one.now other.now) }
{
    match table_of(alloc, one)? {
        Some(one) => {
            let made = makes_alike(alloc, &one, other);
            drop(one);
            made
        }
        None => Ok(false),
    }
}
