// What rows cost less what other rows cost, by key.
ghost use Rattle.std.specs.Prelude.{◌≡◌, ◌++◌, ◌∷◌, [], ℕ, List, OnOk, IfOk, map};
ghost use Rattle.cost_rows.specs.Sums.{Spot};
ghost use Rattle.cost_rows.specs.Keys.{lent_place};
ghost use Rattle.report_texts.specs.Differences.{beside, difference_of, differing, difference_cmp, pair_on};
ghost use Rattle.report_texts.specs.Ranking.{ranked};
ghost use Rattle.cost_reports.specs.InStep.{from_row, ComesNext, IsAlone, IsInOrder};
ghost use Rattle.cost_reports.specs.Rows.{lent_sums, plain_differences};

use crate::lent_sums::LentSums;
use crate::rows::{DifferenceRow, Row};
use crate::signed::less;
use cost_rows::{Key, LentPlace};
use report_texts::{Pair, Side, Signed};
use std::alloc::{AllocError, Global};
use std::cmp::{Ordering, Reverse};
use std::collections::btree_map::Iter;
use std::marker::Model;

/// The first rows less the second, by key: rows of the differences, and the difference of all. The
/// names of its rows are those that are lent to its sums.
#[derive(Drop)]
pub struct Difference<'a> {
    pub(crate) key: Key,
    pub(crate) rows: Vec<DifferenceRow<'a>>,
    pub(crate) total: Signed,
}

impl<'a> Model for Difference<'a> {
    ghost use Rattle.report_texts.specs.Differences.{DifferenceByKey};
    ghost use Rattle.cost_reports.specs.Rows.{plain_differences};

    ghost Value = { DifferenceByKey };

    ghost view = { λ d. record { key = d.key; rows = plain_differences d.rows.items; total = d.total } };
}

impl<'a> Difference<'a> {
    /// What it is by.
    pub fn key(&self) -> Key
        ensures { result ≡ self.now.key }
    {
        self.key
    }

    /// The parts of places whose costs differ, the greatest difference first.
    pub fn rows(&self) -> &[DifferenceRow<'a>]
        ensures { plain_differences result.now ≡ self.now.rows }
    {
        &self.rows
    }

    /// The cost of the first rows less that of the second.
    pub fn total(&self) -> Signed
        ensures { result ≡ self.now.total }
    {
        self.total
    }
}

/// A cost on one side, and none on the other.
fn pair_on(side: Side, cost: u128) -> Pair
    ensures { result ≡ pair_on side cost }
{
    match side {
        Side::First => Pair {
            first: cost,
            second: 0,
        },
        Side::Second => Pair {
            first: 0,
            second: cost,
        },
    }
}

/// What comes next of two lists of sums: a place, what it has on both sides, and which of them it is of.
#[derive(Clone, Copy)]
struct Next<'a> {
    place: LentPlace<'a>,
    pair: Pair,
    of_first: bool,
    of_second: bool,
}

/// A row of one side, at a place that the other side does not have.
fn alone<'a>(side: Side, row: Row<'a>) -> Next<'a>
    ensures { IsAlone side row.entry result }
{
    Next {
        place: row.place,
        pair: pair_on(side, row.cost.0),
        of_first: matches!(side, Side::First),
        of_second: matches!(side, Side::Second),
    }
}

/// What comes next, of the next rows of both sides.
fn next_of<'a>(first: Option<Row<'a>>, second: Option<Row<'a>>) -> Option<Next<'a>>
    ensures { (firsts : List (Spot × ℕ)) (seconds : List (Spot × ℕ)) → IsInOrder (from_row first.entry firsts) → IsInOrder (from_row second.entry seconds)
        → ComesNext first.entry firsts second.entry seconds result }
{
    match (first, second) {
        (Some(first), Some(second)) => match first.place.cmp(&second.place) {
            Ordering::Less => Some(alone(Side::First, first)),
            Ordering::Greater => Some(alone(Side::Second, second)),
            Ordering::Equal => Some(Next {
                place: first.place,
                pair: Pair {
                    first: first.cost.0,
                    second: second.cost.0,
                },
                of_first: true,
                of_second: true,
            }),
        },
        (Some(first), None) => Some(alone(Side::First, first)),
        (None, Some(second)) => Some(alone(Side::Second, second)),
        (None, None) => None,
    }
}

/// The next row of sums.
fn next_row<'n>(sums: &mut Iter<'_, LentPlace<'n>, u128>) -> Option<Row<'n>>
    ensures { lent_sums sums.old ≡ from_row result (lent_sums sums.new) }
{
    let (place, cost) = sums.next()?;
    Some(Row {
        cost: Reverse(*cost),
        place: *place,
    })
}

/// Adds what a place has on the first side less what it has on the second, where they differ.
fn push_differing<'a>(
    rows: &mut Vec<DifferenceRow<'a>>,
    place: LentPlace<'a>,
    pair: Pair,
) -> Result<(), AllocError>
    ensures { OnOk result (plain_differences rows.new.items ≡ plain_differences rows.old.items ++ differing ((lent_place place.entry, pair) ∷ [])) }
{
    if pair.first != pair.second {
        let difference = less(pair.first, pair.second);
        rows.push(DifferenceRow {
            size: Reverse(difference.size),
            place,
            below: difference.below,
        })?;
    }
    Ok(())
}

/// Adds the places whose sums on the two sides differ, in their order, where there are none. Both sides come in this
/// order, so one walk in step finds them.
fn push_all_differing<'n>(
    rows: &mut Vec<DifferenceRow<'n>>,
    first: &LentSums<'n>,
    second: &LentSums<'n>,
) -> Result<(), AllocError>
    requires { rows.old.items ≡ [] }
    ensures { OnOk result (plain_differences rows.new.items ≡ differing (beside first.now.sums second.now.sums)) }
{
    let mut firsts = first.iter();
    let mut seconds = second.iter();
    let mut left = next_row(&mut firsts);
    let mut right = next_row(&mut seconds);
    'places: while let Some(next) = next_of(left, right) {
        push_differing(rows, next.place, next.pair)?;
        if next.of_first {
            left = next_row(&mut firsts);
        }
        if next.of_second {
            right = next_row(&mut seconds);
        }
    }
    Ok(())
}

/// The places whose sums on the two sides differ, in their order.
fn differing_rows<'n>(
    alloc: Global,
    first: &LentSums<'n>,
    second: &LentSums<'n>,
) -> Result<Vec<DifferenceRow<'n>>, AllocError>
    ensures { IfOk result (λ rows. plain_differences rows.items ≡ differing (beside first.now.sums second.now.sums)) }
{
    let mut rows = Vec::new(alloc);
    match push_all_differing(&mut rows, first, second) {
        Ok(()) => Ok(rows),
        Err(error) => {
            // What is dropped at each way out is slow to prove.
            drop(rows);
            Err(error)
        }
    }
}

/// The greatest difference first, whatever its sign, and equally great ones in the order of their
/// parts.
fn rank(rows: &mut Vec<DifferenceRow<'_>>)
    ensures { plain_differences rows.new.items ≡ ranked difference_cmp (plain_differences rows.old.items) }
{
    rows.sort_unstable();
}

/// What the first rows cost less what the second cost, both by one key. Memory is the only refusal.
pub fn subtract<'n>(
    alloc: Global,
    first: &LentSums<'n>,
    second: &LentSums<'n>,
) -> Result<Difference<'n>, AllocError>
    ensures { IfOk result (λ difference. difference ≡ difference_of first.now.key first.now.sums second.now.sums) }
{
    let mut rows = differing_rows(alloc, first, second)?;
    rank(&mut rows);
    Ok(Difference {
        key: first.key(),
        rows,
        total: less(first.total(), second.total()),
    })
}
