// Laws of the definitions, each the contract of a function that does nothing.
ghost use Rattle.std.specs.Prelude.{◌≡◌, ℕ, ◌+◌, ◌*◌, ◌≤◌, Bool, false, List, [], fold, sum_by};
ghost use Rattle.cost_rows.specs.KeySums.{total_of, cost_where, rows_of, sums_by};
ghost use Rattle.cost_rows.specs.Merging.{sum_where};
ghost use Rattle.cost_rows.specs.Sums.{Spot};
ghost use Rattle.cost_rows.specs.declared.keys.Key.{Key};
ghost use Rattle.cost_rows.specs.declared.rows.CellRow.{CellRow};
ghost use Rattle.cost_rows.specs.declared.rows.StackRow.{StackRow};
ghost use Rattle.profile_records.specs.Stacks.{Seen};
ghost use Rattle.report_texts.specs.Calls.{Calls, CallsRepresentEach, EventEdges, HaveFunctions, all_edges, all_calls, calls_by, sum_of, totals_of, with_calls};
ghost use Rattle.report_texts.specs.Costs.{EventRecords, EventCells, StandForEach, all_costs, all_rows, costs_by};
ghost use Rattle.report_texts.specs.Differences.{difference_of, gains_of, losses_of, negative};
ghost use Rattle.report_texts.specs.Functions.{is_one_function};
ghost use Rattle.report_texts.specs.Inclusive.{InclusiveRow, SameStacks, calls_in, inclusive_cost, inclusive_costs, inclusive_rows, no_costs, self_in, stacks_in, with_inclusive};
ghost use Rattle.report_texts.specs.KeyReports.{rank_cmp, enough, report_of, IsShortest};
ghost use Rattle.report_texts.specs.Ranking.{ranked};
ghost use Rattle.report_texts.specs.declared.call_sides.CallSide.{CallSide};
ghost use Rattle.report_texts.specs.declared.cuts.Cut.{Cut};

/// What a report shows and what is left sum to the total, and the total is that of the rows that
/// were added, whatever the key.
pub fn shown_and_rest_are_the_total()
    ensures parts { (key : Key) (cut : Cut) (sums : List (Spot × ℕ)) → let r = report_of key cut sums in total_of r.rows + r.rest ≡ r.total }
    ensures whole { (key : Key) (cut : Cut) (rows : List (CellRow (List ℕ)))
        → (report_of key cut (sums_by key rows)).total ≡ sum_by (λ (r : CellRow (List ℕ)). r.cost) rows }
{}

/// Without a limit a report shows the shortest beginning of the ranked sums that reaches the
/// threshold.
pub fn the_fewest_rows_are_shown()
    ensures { (threshold : ℕ) (sums : List (Spot × ℕ)) → threshold ≤ 100
        → IsShortest (threshold * total_of sums) (ranked rank_cmp sums) (enough threshold sums) }
{}

/// Rows that cost the same for every test of the parts of places that a key tells have equal sums, so
/// every report of them is the same. Rows that were merged before are such rows.
pub fn equal_costs_have_equal_sums()
    ensures same { (key : Key) (rows others : List (CellRow (List ℕ)))
        → ((passes : Spot → Bool) → cost_where key passes rows ≡ cost_where key passes others) → sums_by key rows ≡ sums_by key others }
    ensures merged { (key : Key) (rows : List (CellRow (List ℕ))) → sums_by key (rows_of (sums_by key rows)) ≡ sums_by key rows }
{}

/// Where the cells of each run sum to the self records of its file, for every test of places and
/// each column, the sums of their rows are those of the records; and these sum to what all records
/// cost, whatever the key.
pub fn cells_sum_to_the_records()
    ensures sums { (key : Key) (files : List EventRecords) (runs : List EventCells) → StandForEach files runs
        → sums_by key (all_rows runs) ≡ costs_by key files }
    ensures total { (key : Key) (files : List EventRecords) → total_of (costs_by key files) ≡ total_of (all_costs files) }
{}

/// The rows of a difference sum to its total: those above 0 less those below 0 are what the first
/// add up to less what the second do.
pub fn differences_sum_to_the_total()
    ensures { (key : Key) (firsts seconds : List (Spot × ℕ)) → let rows = (difference_of key firsts seconds).rows in
        gains_of rows + total_of seconds ≡ losses_of rows + total_of firsts }
{}

/// Sums less themselves are no difference, and a difference backwards is its negative.
pub fn differences_turn_round()
    ensures itself { (key : Key) (sums : List (Spot × ℕ))
        → difference_of key sums sums ≡ record { key = key; rows = []; total = record { size = 0; below = false } } }
    ensures backwards { (key : Key) (firsts seconds : List (Spot × ℕ)) → difference_of key seconds firsts ≡ negative (difference_of key firsts seconds) }
{}

/// Over all functions that call or are called, each once, the totals of the callers add up to what
/// the calls sum to, and so do the totals of the callees.
pub fn callers_and_callees_sum_to_the_calls()
    ensures { (side : CallSide) (calls : List Calls) (functions : List Spot) → HaveFunctions functions calls → totals_of side calls functions ≡ sum_of calls }
{}

/// Where the rows of calls of each run sum to the call records of its file, for every test of calls
/// and each column, and are there where these are, the callers and callees of a function are those of
/// the records.
pub fn calls_sum_to_the_records()
    ensures { (side : CallSide) (f : Spot) (files : List EventRecords) (runs : List EventEdges) → CallsRepresentEach files runs
        → calls_by side f (all_edges runs) ≡ calls_by side f (all_calls files) }
{}

/// Where cells, rows of calls and rows of stacks sum to the records and the stacks of their files,
/// the inclusive costs of the rows are those of the files.
pub fn inclusive_costs_sum_to_the_records()
    ensures { (files : List EventRecords) (seen : List Seen) (cells : List EventCells) (calls : List EventEdges) (rows : List (StackRow (List ℕ)))
        → StandForEach files cells → CallsRepresentEach files calls → SameStacks rows seen
        → inclusive_rows (all_rows cells) (all_edges calls) rows ≡ inclusive_costs files seen }
{}

/// Calls that are added one after another sum to the callers or callees of their function. Rows of
/// self costs, of calls and of stacks that are added in whatever order sum to the inclusive costs of
/// the rows of each kind.
pub fn added_rows_sum_to_the_reports()
    ensures calls { (side : CallSide) (f : Spot) (calls : List Calls)
        → fold with_calls (record { side = side; function = f; sums = [] }) calls ≡ record { side = side; function = f; sums = calls_by side f calls } }
    ensures inclusive { (rows : List InclusiveRow) → fold with_inclusive no_costs rows ≡ inclusive_rows (self_in rows) (calls_in rows) (stacks_in rows) }
{}

/// What the inclusive costs have at a function is its self cost, what its calls to other functions
/// cost, and what the stacks count in which it has a frame, each stack once.
pub fn inclusive_costs_are_those_of_each_function()
    ensures { (f : Spot) (files : List EventRecords) (seen : List Seen)
        → sum_where (λ p. is_one_function p f) (λ n. n) (inclusive_costs files seen).sums ≡ inclusive_cost f files seen }
{}
