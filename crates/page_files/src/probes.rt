// The place of an entry in an index.
ghost use Rattle.std.specs.Prelude.{◌≡◌};
ghost use Rattle.sqlite_value.specs.Keys.{entry_cmp, prefix_cmp};
ghost use Rattle.sqlite_record.specs.Record.{decode};
ghost use Rattle.sqlite_store.specs.Sides.{below_or_above};

use sqlite_btree::Probe;
use sqlite_record::compare;
use sqlite_value::keys::Order;
use sqlite_value::row::Row;
use std::cmp::Ordering;

/// Where this row stands in an index of this order.
#[derive(Clone, Copy, Debug)]
pub struct AtRow<'a>(pub Order, pub &'a Row);

impl Probe for AtRow<'_> {
    ghost side = { λ it bytes. entry_cmp it.0 (decode bytes) it.1.now };

    fn compare(&self, bytes: &[u8]) -> Ordering {
        compare::with_row(self.0, bytes, self.1)
    }
}

/// The same, for an entry that is given as its record.
#[derive(Clone, Copy, Debug)]
pub struct AtRecord<'a>(pub Order, pub &'a [u8]);

impl Probe for AtRecord<'_> {
    ghost side = { λ it bytes. entry_cmp it.0 (decode bytes) (decode it.1.now) };

    fn compare(&self, bytes: &[u8]) -> Ordering {
        compare::with_record(self.0, bytes, self.1)
    }
}

/// Puts the place before what is equal.
fn before_equal(order: Ordering) -> Ordering
    ensures { result ≡ below_or_above order }
{
    if order.is_lt() {
        Ordering::Less
    } else {
        Ordering::Greater
    }
}

/// The place before the entries that begin with the columns of this row.
#[derive(Clone, Copy, Debug)]
pub struct BeforePrefix<'a>(pub Order, pub &'a Row);

impl Probe for BeforePrefix<'_> {
    ghost side = { λ it bytes. below_or_above (prefix_cmp it.0 (decode bytes) it.1.now) };

    fn compare(&self, bytes: &[u8]) -> Ordering {
        before_equal(compare::with_key(self.0, bytes, self.1))
    }
}
