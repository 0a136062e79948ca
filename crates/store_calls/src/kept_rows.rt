// What is kept of the calls of a function.
ghost use Rattle.std.specs.Prelude.{◌≡◌, sum_by};
ghost use Rattle.report_texts.specs.Pairs.{AreBelow};

use report_texts::{CallSide, Pair};

/// Calls of the function that is asked: the numbers of the function on their other side, and what they sum to.
#[derive(Clone, Copy)]
pub(crate) struct KeptCall {
    pub object: u32,
    pub function: u32,
    pub sum: Pair,
}

/// The calls on one side of the function that is asked, and whether any call was from it or to it. What they sum to
/// is compared with the bound of sums as they are kept: so they can be added up in any order.
#[derive(Drop)]
pub(crate) struct KeptCalls {
    pub side: CallSide,
    pub known: bool,
    pub rows: Vec<KeptCall>,
    pub total: Pair,
    ghost first: { total.first ≡ sum_by (λ c. c.sum.first) rows.items },
    ghost second: { total.second ≡ sum_by (λ c. c.sum.second) rows.items },
    ghost small: { AreBelow total.first total.second },
}
