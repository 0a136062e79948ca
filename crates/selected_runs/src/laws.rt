// What runs that are held tell of their files: laws of the definitions, each the contract of
// a function that does nothing.
ghost use Rattle.std.specs.Prelude.{◌≡◌, ℕ, List, Result, map};
ghost use Rattle.std.specs.List.{list_any};
ghost use Rattle.cost_rows.specs.KeySums.{sums_by};
ghost use Rattle.cost_rows.specs.declared.keys.Key.{Key};
ghost use Rattle.report_texts.specs.Costs.{all_rows, costs_by};
ghost use Rattle.plain_tables.specs.Tables.{Tables};
ghost use Rattle.histories.specs.History.{History};
ghost use Rattle.histories.specs.Reports.{event_records, has_event};
ghost use Rattle.histories.specs.Selections.{numbers_of, selected};
ghost use Rattle.histories.specs.Representation.{TablesRepresent};
ghost use Rattle.histories.specs.declared.answers.Refusal.{Refusal};
ghost use Rattle.requests.specs.Plain.{Selection};
ghost use Rattle.selected_runs.specs.Counted.{AreCounted, event_cells, has_counts};
ghost use Rattle.selected_runs.specs.EventRuns.{AreEventRuns, AreEventRunsIn};
ghost use Rattle.selected_runs.specs.Selected.{AreSelected, AreSelectedIn};
ghost use Rattle.selected_runs.specs.declared.counting.Counted.{Counted};

/// What tables that represent a history tell of a selection is what is selected after it: its runs, those of
/// an event that is asked, or why there are none.
pub fn selections_are_told()
    ensures selected { (h : History) (t : Tables) (s : Selection) (found : Result (List ℕ) Refusal)
        → TablesRepresent h t → AreSelectedIn t s found → AreSelected h s found }
    ensures event { (h : History) (t : Tables) (s : Selection) (event : List ℕ) (found : Result (List Counted) Refusal) → TablesRepresent h t
        → AreEventRunsIn t s event found → AreEventRuns h t s event found }
{}

/// Runs that are counted by their heads, those of a selection: one of them has the event where a file that
/// is selected has it; and their cells, each as often as its column counts, come by every key to what the
/// self records of these files cost in the event.
pub fn runs_cost_what_files_cost()
    ensures event { (h : History) (t : Tables) (s : Selection) (event : List ℕ) (runs : List Counted) → TablesRepresent h t
        → AreCounted t event (numbers_of (selected h s)) runs → list_any has_counts runs ≡ list_any (has_event event) (selected h s) }
    ensures costs { (h : History) (t : Tables) (s : Selection) (key : Key) (event : List ℕ) (runs : List Counted) → TablesRepresent h t
        → AreCounted t event (numbers_of (selected h s)) runs
        → sums_by key (all_rows (map (event_cells t) runs)) ≡ costs_by key (map (event_records event) (selected h s)) }
{}
