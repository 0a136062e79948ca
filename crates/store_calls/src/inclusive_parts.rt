// Inclusive costs in two parts, which are one when all runs were added.
ghost use Rattle.std.specs.Prelude.{◌≡◌, ◌≤◌};
ghost use Rattle.cost_rows.specs.declared.keys.Key.TheVariants.{Function};
ghost use Rattle.selected_runs.specs.Sums.{numbers_total};

use cost_reports::FrameSums;
use selected_runs::NumberSums;

/// What functions cost with all that they call, in two parts: the rows of Callgrind runs have the numbers of names,
/// and are added up by these; the frames of folded runs have none.
#[derive(Drop)]
pub(crate) struct InclusiveParts {
    /// Self costs, and the costs of calls to another function at the caller, by function.
    pub numbers: NumberSums,
    /// The same calls, by the function that is called: their numbers tell which names have to be held.
    pub called: NumberSums,
    /// What the self costs among them sum to.
    pub self_cost: u128,
    /// What functions cost in stacks.
    pub stacks: FrameSums,
    ghost by_function: { numbers.key ≡ Function },
    ghost by_called: { called.key ≡ Function },
    ghost within: { numbers_total called.sums ≤ numbers_total numbers.sums },
}
