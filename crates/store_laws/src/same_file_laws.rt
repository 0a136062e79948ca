// Laws of the definitions, each the contract of a function that does nothing.
ghost use Rattle.std.specs.Prelude.{List, ℕ, Option};
ghost use Rattle.report_texts.specs.declared.call_sides.CallSide.{CallSide};
ghost use Rattle.report_texts.specs.declared.cuts.Cut.{Cut};
ghost use Rattle.cost_rows.specs.declared.keys.Key.{Key};
ghost use Rattle.histories.specs.History.{Ask, Annotate, History};
ghost use Rattle.requests.specs.declared.queries.Query.TheVariants as queries;
ghost use Rattle.requests.specs.Plain.{Selection, calls_query};
ghost use Rattle.store_laws.specs.SameFiles.{AreAnsweredAlike, CompareSameFiles, NameSameFiles};
ghost use Rattle.byte_io.specs.Outcomes.{Outcome};

/// Two selections, each after a history of its own, name the same files, in whatever order and under
/// whatever numbers and labels: then a report by key, one of inclusive costs, and one of callers or
/// callees is the same, and so is a difference where both sides are such files. Other runs, the order
/// of imports, and what was removed before do not show.
pub fn only_the_files_matter_to_reports()
    ensures by { (h k : History) (s r : Selection) (key : Key) (event : List ℕ) (cut : Cut) → NameSameFiles h s k r
        → AreAnsweredAlike h (Ask (queries.By s key event cut)) k (Ask (queries.By r key event cut)) }
    ensures inclusive { (h k : History) (s r : Selection) (event : List ℕ) → NameSameFiles h s k r
        → AreAnsweredAlike h (Ask (queries.Inclusive s event)) k (Ask (queries.Inclusive r event)) }
    ensures calls { (h k : History) (s r : Selection) (side : CallSide) (event object function : List ℕ) → NameSameFiles h s k r
        → AreAnsweredAlike h (Ask (calls_query side s event object function)) k (Ask (calls_query side r event object function)) }
    ensures subtract { (h k : History) (s r : Selection) (t u : Option Selection) (key : Key) (event : List ℕ) → CompareSameFiles h s t k r u
        → AreAnsweredAlike h (Ask (queries.Subtract s t key event)) k (Ask (queries.Subtract r u key event)) }
{}

/// The same of annotated sources, CSV and folded stacks.
pub fn only_the_files_matter_to_exports()
    ensures annotate { (h k : History) (s r : Selection) (event file : List ℕ) (source : List Outcome) → NameSameFiles h s k r
        → AreAnsweredAlike h (Annotate s event file source) k (Annotate r event file source) }
    ensures csv { (h k : History) (s r : Selection) → NameSameFiles h s k r → AreAnsweredAlike h (Ask (queries.Csv s)) k (Ask (queries.Csv r)) }
    ensures folded { (h k : History) (s r : Selection) → NameSameFiles h s k r → AreAnsweredAlike h (Ask (queries.Folded s)) k (Ask (queries.Folded r)) }
{}
