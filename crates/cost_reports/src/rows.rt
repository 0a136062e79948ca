// The rows of reports: a number first, by which they are ranked, and the part of a place.
ghost use Rattle.std.specs.Prelude.{◌≡◌};
ghost use Rattle.cost_rows.specs.Keys.{lent_place};
ghost use Rattle.cost_reports.specs.Rows.{plain_call, plain_difference, plain_row};

use cost_rows::LentPlace;
use report_texts::{Pair, Signed};
use std::cmp::Reverse;

/// A cost and the part of a place that it is of: the greatest cost comes first, and of equal costs
/// the order is that of the parts.
#[derive(Clone, Copy, PartialEq, Eq, PartialOrd, Ord)]
pub struct Row<'a> {
    pub(crate) cost: Reverse<u128>,
    pub(crate) place: LentPlace<'a>,
}

/// The costs of calls, the function on their other side, and how many there were: the greatest cost
/// comes first, and of equal costs the order is that of the functions.
#[derive(Clone, Copy, PartialEq, Eq, PartialOrd, Ord)]
pub struct CallRow<'a> {
    pub(crate) cost: Reverse<u128>,
    pub(crate) place: LentPlace<'a>,
    pub(crate) count: u128,
}

/// A difference and the part of a place that it is of: the greatest comes first, whatever its sign,
/// and of equally great ones the order is that of the parts.
#[derive(Clone, Copy, PartialEq, Eq, PartialOrd, Ord)]
pub struct DifferenceRow<'a> {
    pub(crate) size: Reverse<u128>,
    pub(crate) place: LentPlace<'a>,
    pub(crate) below: bool,
}

impl<'a> Row<'a> {
    /// The part of a place; what is outside the key of the report is `???` and 0.
    pub fn place(&self) -> LentPlace<'a>
        ensures { lent_place result ≡ (plain_row self.now).0 }
    {
        self.place
    }

    /// Its cost.
    pub fn cost(&self) -> u128
        ensures { result ≡ (plain_row self.now).1 }
    {
        self.cost.0
    }
}

impl<'a> CallRow<'a> {
    /// The function on the other side of the calls.
    pub fn place(&self) -> LentPlace<'a>
        ensures { lent_place result ≡ (plain_call self.now).0 }
    {
        self.place
    }

    /// What the calls cost, and how many there were.
    pub fn sum(&self) -> Pair
        ensures { result ≡ (plain_call self.now).1 }
    {
        Pair {
            first: self.cost.0,
            second: self.count,
        }
    }
}

impl<'a> DifferenceRow<'a> {
    /// The part of a place; what is outside the key is `???` and 0.
    pub fn place(&self) -> LentPlace<'a>
        ensures { lent_place result ≡ (plain_difference self.now).0 }
    {
        self.place
    }

    /// Its cost on the first side less that on the second.
    pub fn cost(&self) -> Signed
        ensures { result ≡ (plain_difference self.now).1 }
    {
        Signed {
            size: self.size.0,
            below: self.below,
        }
    }
}
