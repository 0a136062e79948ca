// One more record among names and sums.
ghost use Rattle.std.specs.Prelude.{◌≡◌, OnOk, OnErr, All};
ghost use Rattle.std.specs.Map.{values_of};
ghost use Rattle.cost_rows.specs.Calls.{AreSmall};
ghost use Rattle.cg_text.specs.Names.{unknown};
ghost use Rattle.profile_records.specs.Columns.{added, HaveRoom};
ghost use Rattle.profile_records.specs.Marks.{Agrees, names_tell, call_tells};
ghost use Rattle.cost_rows.specs.Content.{calls_with, cells_with, names_with_callee, names_with_cost, with_three};
ghost use Rattle.cost_rows.specs.Growing.{Grows};
ghost use Rattle.cost_rows.specs.Lent.{callee_of, cost_of, self_cost, leaf_cell};
ghost use Rattle.cost_rows.specs.Marks.{HaveNames, known_by, LearnsNames};
ghost use Rattle.cost_rows.specs.Merging.{merge};
ghost use Rattle.cost_rows.specs.Places.{cell_cmp};
ghost use Rattle.cost_rows.specs.Trimmed.{trimmed};

use crate::call_sums::CallSums;
use crate::guesses::Guesses;
use crate::lent_names::place_lent;
use crate::marks::Marks;
use crate::names::Names;
use crate::numbering::number_place;
use crate::places::{Call, CellPlace};
use crate::sum_map::SumMap;
use crate::trimmed::trimmed;
use cg_text::UNKNOWN;
use profile_records::{CallCost, SelfCost};
use std::alloc::AllocError;

/// Merges a self record. A refusal leaves the cells as they were, and may leave names of the record
/// and their marks.
pub(crate) fn merge_self(
    names: &mut Names,
    marks: &mut Marks,
    cells: &mut SumMap<CellPlace>,
    r: SelfCost<'_>,
) -> Result<(), AllocError>
    requires small { All HaveRoom (values_of cells.old) }
    requires named { HaveNames names.old marks.old }
    requires agrees { Agrees (known_by names.old marks.old) (names_tell r.names) }
    ensures names { OnOk result (names.new ≡ names_with_cost (self_cost r.entry) names.old) }
    ensures cells { OnOk result (cells.new ≡ cells_with names.new (self_cost r.entry) cells.old) }
    ensures learns { OnOk result (LearnsNames names.old marks.old (names_tell r.entry.names) names.new marks.new) }
    ensures grows { Grows names.old names.new }
    ensures err { OnErr result (cells.new ≡ cells.old) }
{
    let place = place_lent(names, marks, r.names, r.line)?;
    let thread = r.thread;
    cells.merge(CellPlace { place, thread }, trimmed(r.costs))
}

/// Merges a call record. A refusal leaves the calls as they were, and may leave names of the record
/// and their marks.
pub(crate) fn merge_call(
    names: &mut Names,
    marks: &mut Marks,
    edges: &mut CallSums,
    r: CallCost<'_>,
) -> Result<(), AllocError>
    requires small { All AreSmall (values_of edges.old) }
    requires named { HaveNames names.old marks.old }
    requires agrees { Agrees (known_by names.old marks.old) (call_tells r) }
    ensures names { OnOk result (names.new ≡ names_with_callee (callee_of r.entry) (names_with_cost (cost_of r.entry) names.old)) }
    ensures calls { OnOk result (edges.new ≡ calls_with names.new (callee_of r.entry) (cost_of r.entry) edges.old) }
    ensures learns { OnOk result (LearnsNames names.old marks.old (call_tells r.entry) names.new marks.new) }
    ensures grows { Grows names.old names.new }
    ensures err { OnErr result (edges.new ≡ edges.old) }
{
    let place = place_lent(names, marks, r.names, r.line)?;
    let called = place_lent(names, marks, r.called, 0)?;
    let call = Call {
        place,
        object: called.object,
        file: called.file,
        function: called.function,
    };
    edges.merge(call, r.count, trimmed(r.costs))
}

/// Merges the costs of a stack into those of the function that was running. A refusal leaves the
/// cells as they were, and may leave names.
fn add_leaf(
    names: &mut Names,
    guesses: &mut Guesses,
    cells: &mut SumMap<CellPlace>,
    function: &[u8],
    costs: &[u64],
) -> Result<(), AllocError>
    requires { All HaveRoom (values_of cells.old) }
    ensures names { OnOk result (names.new ≡ with_three unknown unknown function.now names.old) }
    ensures cells { OnOk result (cells.new ≡ merge cell_cmp added cells.old (leaf_cell names.new function.now) (trimmed costs.now)) }
    ensures grows { Grows names.old names.new }
    ensures err { OnErr result (cells.new ≡ cells.old) }
{
    let guess = guesses.guess(names, function);
    let place = number_place(names, guess, UNKNOWN, UNKNOWN, function, 0)?;
    guesses.keep(place)?;
    cells.merge(CellPlace { place, thread: 0 }, trimmed(costs))
}

/// The same, where a refusal leaves the names as they were too.
pub(crate) fn merge_leaf(
    names: &mut Names,
    guesses: &mut Guesses,
    cells: &mut SumMap<CellPlace>,
    function: &[u8],
    costs: &[u64],
) -> Result<(), AllocError>
    requires { All HaveRoom (values_of cells.old) }
    ensures names { OnOk result (names.new ≡ with_three unknown unknown function.now names.old) }
    ensures cells { OnOk result (cells.new ≡ merge cell_cmp added cells.old (leaf_cell names.new function.now) (trimmed costs.now)) }
    ensures grows { Grows names.old names.new }
    ensures err { OnErr result ((names.new ≡ names.old) × (cells.new ≡ cells.old)) }
{
    let held = names.len();
    if let Err(refused) = add_leaf(names, guesses, cells, function, costs) {
        names.truncate(held);
        return Err(refused);
    }
    Ok(())
}
