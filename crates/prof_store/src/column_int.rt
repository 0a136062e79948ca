// Whole numbers that a column can hold.
ghost use Rattle.std.specs.Prelude.{◌≡◌, ◌<◌, ◌^◌, IfSome, None, ◌↔◌, ◌≤◌, pos};

use sqlite::types::{ToSql, ValueRef};
use std::marker::Model;

/// A number from 0 to 2^63-1. Contracts see it as a number.
#[derive(Drop)]
pub struct ColumnInt {
    number: u64,
}

impl Model for ColumnInt {
    ghost use Rattle.std.specs.Prelude.{ℕ, ◌<◌, ◌^◌};

    ghost Value = { ℕ };

    ghost view = { λ a. a.number };

    ghost invariant = { λ a. a.number < 2 ^ 63 };
}

impl ColumnInt {
    /// Takes a number that a column can hold.
    pub fn of(number: u64) -> Option<ColumnInt>
        ensures some { IfSome result (λ w. w ≡ number) }
        ensures none { (result ≡ None) ↔ (2 ^ 63 ≤ number) }
    {
        if number < 1 << 63 {
            Some(ColumnInt { number })
        } else {
            None
        }
    }

    pub fn get(&self) -> u64
        ensures { result ≡ self.now }
    {
        self.number
    }

    pub fn as_i64(&self) -> i64
        ensures { result ≡ pos self.now }
    {
        self.number as i64
    }
}

/// A sum that a column can hold.
pub fn column_int_of(sum: u128) -> Option<ColumnInt>
    ensures some { IfSome result (λ w. w ≡ sum) }
    ensures none { (result ≡ None) ↔ (2 ^ 63 ≤ sum) }
{
    match u64::try_from(sum) {
        Ok(number) => ColumnInt::of(number),
        Err(_) => None,
    }
}

/// A number of 32 bits.
pub fn small_of(number: usize) -> Option<u32>
    ensures some { IfSome result (λ n. n ≡ number) }
    ensures none { (result ≡ None) ↔ (2 ^ 32 ≤ number) }
{
    match u32::try_from(number) {
        Ok(small) => Some(small),
        Err(_) => None,
    }
}

impl<'a> ToSql<'a> for &'a ColumnInt {
    ghost use Rattle.std.specs.Prelude.{pos};
    ghost use Rattle.sqlite_value.specs.declared.value.Value.TheVariants.{Int};

    ghost to_sql = { λ w. Int (pos w.now) };

    fn to_sql(self) -> ValueRef<'a> {
        ValueRef::Int(self.number as i64)
    }
}
