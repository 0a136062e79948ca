// Places among the entries of an index.
ghost use Rattle.page_rows.specs.Indexes.{at_row, behind_record};

use sqlite_btree::Probe;
use sqlite_record::compare;
use sqlite_value::keys::Order;
use sqlite_value::row::Row;
use std::cmp::Ordering;

/// The place of this row.
#[derive(Clone, Copy, Debug)]
pub struct AtRow<'a>(pub Order, pub &'a Row);

impl Probe for AtRow<'_> {
    ghost side = { λ it. at_row it.0 it.1.now };

    fn compare(&self, bytes: &[u8]) -> Ordering {
        compare::with_row(self.0, bytes, self.1)
    }
}

/// The place behind the entry of this record.
#[derive(Clone, Copy, Debug)]
pub struct BehindRecord<'a>(pub Order, pub &'a [u8]);

impl Probe for BehindRecord<'_> {
    ghost side = { λ it. behind_record it.0 it.1.now };

    fn compare(&self, bytes: &[u8]) -> Ordering {
        if compare::with_record(self.0, bytes, self.1).is_gt() {
            Ordering::Greater
        } else {
            Ordering::Less
        }
    }
}
