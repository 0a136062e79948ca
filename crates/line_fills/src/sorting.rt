// The lines in the order of an index (specs/Rows.antt).
ghost use Rattle.std.specs.Prelude.{◌≡◌, Ok, None, false, IfOk, IfSome, IsPermutation, IsTrue, length, map};
ghost use Rattle.std.specs.List.{range_with_len};
ghost use Rattle.sqlite_value.specs.Order.{row_cmp};
ghost use Rattle.line_fills.specs.Causes.{CanEnter};
ghost use Rattle.line_fills.specs.Rows.{ArePlacesOf, HaveRowids, IsTied, KeysRise, SortsByRank, numbered, rank_at};

use crate::lines::PageLine;
use crate::values::compare_keys;
use std::alloc::{AllocError, Global};
use std::cmp::Ordering;

/// The places of the lines, in the order of an index. There is no memory for 2^32 lines.
pub(crate) fn sorted<L: PageLine>(
    alloc: Global,
    index: usize,
    lines: &[L],
) -> Result<Vec<u32>, AllocError>
    ensures { IfOk result (λ places. IsPermutation (range_with_len 0 (length lines.now)) places.items) }
{
    let Ok(count) = u32::try_from(lines.len()) else {
        return Err(AllocError);
    };
    let mut places = Vec::with_capacity(alloc, lines.len())?;
    for at in 0..count {
        places.push(at)?;
    }
    places.sort_unstable_by(|a, b| match (lines.get(*a as usize), lines.get(*b as usize)) {
        (Some(line), Some(other)) => line.compare(other, index),
        _ => Ordering::Equal,
    });
    Ok(places)
}

/// How two places stand by the keys of their lines, in an index of these columns. A place of no line stands before others.
fn compare_places<L: PageLine>(columns: &[usize], lines: &[L], place: u32, other: u32) -> Ordering
    ensures { result ≡ row_cmp (rank_at columns.now (map L.columns lines.now) place) (rank_at columns.now (map L.columns lines.now) other) }
{
    match (lines.get(place as usize), lines.get(other as usize)) {
        (Some(line), Some(other)) => compare_keys(columns, line, 0, other, 0),
        (Some(_), None) => Ordering::Greater,
        (None, Some(_)) => Ordering::Less,
        (None, None) => Ordering::Equal,
    }
}

/// Puts places of lines into the order of an index of these columns, by the very keys: this takes longer than `sorted`.
fn sort_by_keys<L: PageLine>(columns: &[usize], lines: &[L], places: &mut [u32])
    ensures same { IsPermutation places.old places.new }
    ensures sorted { SortsByRank columns.now (map L.columns lines.now) places.new }
{
    places.sort_unstable_by(|a, b| compare_places(columns, lines, *a, *b));
}

/// Whether the keys of lines rise from each place to the next, in an index of these columns. The lines are numbered from
/// `first` on.
pub(crate) fn keys_rise<L: PageLine>(
    columns: &[usize],
    first: u64,
    lines: &[L],
    places: &[u32],
) -> bool
    requires room { HaveRowids first lines.now }
    requires within { ArePlacesOf lines.now places.now }
    ensures rise { IsTrue result → KeysRise columns.now first (map L.columns lines.now) places.now }
    ensures tied { result ≡ false → IsTied columns.now first (map L.columns lines.now) places.now }
{
    for i in 1..places.len() {
        let (before, after) = (places[i - 1], places[i]);
        let found = compare_keys(
            columns,
            &lines[before as usize],
            first + before as u64,
            &lines[after as usize],
            first + after as u64,
        );
        if found != Ordering::Less {
            return false;
        }
    }
    true
}

/// The places of the lines in the order of an index of these columns, or `None` where two lines have one key. `number` is
/// its place among the indexes of the table.
pub(crate) fn in_order<L: PageLine>(
    alloc: Global,
    number: usize,
    columns: &[usize],
    first: u64,
    lines: &[L],
) -> Result<Option<Vec<u32>>, AllocError>
    requires room { HaveRowids first lines.now }
    ensures all { IfOk result (λ found. IfSome found (λ places. IsPermutation (range_with_len 0 (length lines.now)) places.items)) }
    ensures rise { IfOk result (λ found. IfSome found (λ places. KeysRise columns.now first (map L.columns lines.now) places.items)) }
    ensures none { result ≡ Ok None → ¬ (CanEnter columns.now (numbered first (map L.columns lines.now))) }
{
    let mut places = sorted(alloc, number, lines)?;
    if keys_rise(columns, first, lines, places.as_slice()) {
        return Ok(Some(places));
    }
    // Two lines have one key, or their own order is not that of the index.
    sort_by_keys(columns, lines, places.as_mut_slice());
    if keys_rise(columns, first, lines, places.as_slice()) {
        Ok(Some(places))
    } else {
        Ok(None)
    }
}
