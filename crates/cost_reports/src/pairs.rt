// Two numbers that are added up side by side.
ghost use Rattle.std.specs.Prelude.{◌≡◌, ◌+◌, ◌<◌, ◌^◌};
ghost use Rattle.report_texts.specs.Pairs.{pairs_added};

use report_texts::Pair;

/// Both numbers and more.
pub(crate) fn plus(held: Pair, more: Pair) -> Pair
    requires first { held.first + more.first < 2 ^ 128 }
    requires second { held.second + more.second < 2 ^ 128 }
    ensures { result ≡ pairs_added held more }
{
    Pair {
        first: held.first + more.first,
        second: held.second + more.second,
    }
}
