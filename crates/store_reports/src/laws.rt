// What reports sum to: a law of the definitions, the contract of a function that does nothing.
ghost use Rattle.std.specs.Prelude.{◌≡◌, ◌+◌, List, ℕ};
ghost use Rattle.cost_rows.specs.KeySums.{total_of};
ghost use Rattle.cost_rows.specs.declared.keys.Key.{Key};
ghost use Rattle.report_texts.specs.declared.cuts.Cut.{Cut};
ghost use Rattle.histories.specs.History.{History};
ghost use Rattle.histories.specs.Reports.{report_by, self_costs};
ghost use Rattle.histories.specs.Selections.{selected};
ghost use Rattle.requests.specs.Plain.{Selection};

/// What a report shows, and what is left, sum to what the self records of the selected files cost in the
/// event, as the line grammar reads them: for every selection, event, key and cut.
pub fn reports_sum_to_the_records()
    ensures sums { (h : History) (s : Selection) (key : Key) (event : List ℕ) (cut : Cut) → let r = report_by (selected h s) key event cut in
        total_of r.rows + r.rest ≡ self_costs event (selected h s) }
    ensures total { (h : History) (s : Selection) (key : Key) (event : List ℕ) (cut : Cut)
        → (report_by (selected h s) key event cut).total ≡ self_costs event (selected h s) }
{}
