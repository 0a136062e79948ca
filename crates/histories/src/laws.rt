// What legal steps make of histories, and of tables that represent them: laws of the definitions, each
// the contract of a function that does nothing.
ghost use Rattle.std.specs.Prelude.{◌≡◌, ℕ, ◌++◌, [], ◌∷◌, List, true};
ghost use Rattle.std.specs.List.{AllByRecursion};
ghost use Rattle.plain_tables.specs.Lists.{Has};
ghost use Rattle.plain_tables.specs.Sound.{AreSound};
ghost use Rattle.callgrind_reader.specs.Grammars.{First, Second};
ghost use Rattle.cg_formulas.specs.declared.heads.FileHead.{FileHead};
ghost use Rattle.report_texts.specs.Verifying.{verified};
ghost use Rattle.plain_tables.specs.Changes.{has_run, joined, with_baseline, with_group, without_group, without_member, without_run};
ghost use Rattle.plain_tables.specs.Tables.{Tables, new_tables};
ghost use Rattle.run_stores.specs.HeldHeads.{IsHeadIn};
ghost use Rattle.run_stores.specs.Totals.{held_count};
ghost use Rattle.profile_records.specs.declared.kinds.Kind.{Kind};
ghost use Rattle.byte_io.specs.Outcomes.{Outcome};
ghost use Rattle.histories.specs.Entries.{GroupShown, ListsGroups, ListsRuns, RunShown};
ghost use Rattle.histories.specs.Formats.{Format, Callgrind};
ghost use Rattle.histories.specs.History.{Command, Import, Remove, MakeGroup, DropGroup, Join, Leave, SetBaseline, Step, History, File, held};
ghost use Rattle.histories.specs.Legal.{AreAlike, AreExpectedAlike, GaveSame, AreLegal, IsHistory, IsLegal, IsTidy};
ghost use Rattle.histories.specs.Files.{events_of, records_of, stated_of};
ghost use Rattle.histories.specs.Marks.{AreBy, AreReadAlike, HasNoThread, HasNoThreadLine, IsMarked};
ghost use Rattle.histories.specs.SelectedRuns.{AreSelected, SelectionAgrees};
ghost use Rattle.histories.specs.Representation.{AreRepresentedAlike, IsImport, TablesRepresent, StepsInto};
ghost use Rattle.histories.specs.Sums.{calls_held};
ghost use Rattle.histories.specs.Told.{IsHeldAs, SumsFit, GroupAgrees, HeadAgrees, HeldAgrees, RowsAgree, SumsAgree};
ghost use Rattle.histories.specs.declared.answers.Answer.TheVariants.{Held, Done, Text, Refused};
ghost use Rattle.histories.specs.declared.answers.Refusal.{Refusal};
ghost use Rattle.requests.specs.Plain.{Selection};
ghost use Rattle.histories.specs.declared.limits.Limits.{Limits};

/// A history with a legal step more is a history, and so with a list of them; two legal lists one after
/// the other are a legal list.
pub fn histories_grow()
    ensures one { (limits : Limits) (h : History) (step : Step) → IsHistory h → IsLegal limits h step.command step.answer → IsHistory (h ++ step ∷ []) }
    ensures all { (limits : Limits) (h steps : History) → IsHistory h → AreLegal limits h steps → IsHistory (h ++ steps) }
    ensures append { (limits : Limits) (h xs ys : History) → AreLegal limits h xs → AreLegal limits (h ++ xs) ys → AreLegal limits h (xs ++ ys) }
{}

/// In each history, whoever is in a group or its baseline is held, and so is the group; groups' names
/// are in form.
pub fn members_and_baselines_are_held()
    ensures { (h : History) → IsHistory h → IsTidy h }
{}

/// The tables of a new store represent the empty history, and tables go on to represent the history
/// after an answer that changes nothing.
pub fn tables_stay_through_what_changes_nothing()
    ensures new { TablesRepresent [] new_tables }
    ensures held { (command : Command) (n : ℕ) (t : Tables) → StepsInto command (Held n) t t }
    ensures told { (command : Command) (text : List ℕ) (t : Tables) → StepsInto command (Text text) t t }
    ensures refused { (command : Command) (refusal : Refusal) (t : Tables) → StepsInto command (Refused refusal) t t }
{}

/// Where a file is inserted with its head and its rows, under the next number, the tables represent the
/// history with its import.
pub fn an_inserted_file_is_an_import()
    ensures { (kind : Kind) (label : List ℕ) (outcomes : List Outcome) (head : FileHead) → IsImport kind label outcomes head }
{}

/// Each other change of the tables is its command.
pub fn changes_are_commands()
    ensures removed { (n : ℕ) (t : Tables) → StepsInto (Remove n) Done t (without_run n t) }
    ensures made { (name : List ℕ) (t : Tables) → StepsInto (MakeGroup name) Done t (with_group name t) }
    ensures dropped { (name : List ℕ) (t : Tables) → StepsInto (DropGroup name) Done t (without_group name t) }
    ensures joined { (name : List ℕ) (n : ℕ) (t : Tables) → StepsInto (Join name n) Done t (joined name n t) }
    ensures left { (name : List ℕ) (n : ℕ) (t : Tables) → StepsInto (Leave name n) Done t (without_member name n t) }
    ensures based { (name : List ℕ) (n : ℕ) (t : Tables) → StepsInto (SetBaseline name n) Done t (with_baseline name n t) }
{}

/// Tables that represent a history tell which runs it holds, by number and by digest, and which groups.
pub fn tables_represent_what_is_held()
    ensures { (h : History) (t : Tables) → TablesRepresent h t → HeldAgrees h t }
{}

/// Their sums are those over the files that are held, and what does not fit beside the one does not
/// beside the other.
pub fn tables_represent_the_sums()
    ensures sums { (h : History) (t : Tables) → AreSound t → TablesRepresent h t → SumsAgree h t }
    ensures call_count { (h : History) (t : Tables) → TablesRepresent h t → held_count t ≡ calls_held (held h) }
{}

/// A number that is held is that of a file, and of a run of the book that tells of it. Its rows in the
/// tables, by number, sum to what the file says: cells, for every test of places; calls, for every
/// test of them, and which there are; stacks, for every test of frames. None is 0 but numbers of calls.
pub fn tables_represent_each_run()
    ensures held { (h : History) (t : Tables) (n : ℕ) → TablesRepresent h t → has_run t n ≡ true → IsHeldAs h t n }
    ensures rows { (h : History) (t : Tables) (f : File) → TablesRepresent h t → Has (held h) f → RowsAgree f t }
{}

/// In tables that represent a history, the head that the lines of a run say is what its file says: its
/// events, its derived events with their coefficients, and the totals that it states. What is verified
/// by such a head is what is verified by the file.
pub fn tables_represent_each_head()
    ensures told { (h : History) (t : Tables) (f : File) (head : FileHead) → TablesRepresent h t → Has (held h) f → IsHeadIn f.number t head
        → HeadAgrees f head }
    ensures verified { (f : File) (head : FileHead) (run : ℕ) (sums : List ℕ)
        → HeadAgrees f head → verified run head.events sums head.stated ≡ verified run (events_of f.format f.bytes) sums (stated_of f.format f.bytes) }
{}

/// The lines of a group tell its members and its baseline.
pub fn tables_represent_each_group()
    ensures { (h : History) (t : Tables) (name : List ℕ) → TablesRepresent h t → GroupAgrees h t name }
{}

/// A selection names each file once: all that are held, the one of a number, or those of the members of
/// a group. The runs of the tables that it names are those of these files, in the same order.
pub fn tables_represent_selections()
    ensures files { (h : History) → IsHistory h → AreSelected h }
    ensures runs { (h : History) (t : Tables) (s : Selection) → TablesRepresent h t → SelectionAgrees h t s }
{}

/// The sums over the files that are held, by event, stay within their bound in each history.
pub fn held_sums_fit()
    ensures { (h : History) → IsHistory h → SumsFit (held h) }
{}

/// The texts of lists are those of entries that show the lines of the tables: each run in order, and
/// each group, by name, with its members by number.
pub fn tables_represent_the_lists<E>()
    ensures runs { (shows : E → RunShown) (h : History) (t : Tables) → TablesRepresent h t → ListsRuns shows h t }
    ensures groups { (shows : E → GroupShown) (h : History) (t : Tables) → TablesRepresent h t → ListsGroups shows h t }
{}

/// How the bytes of a source are cut into reads does not show: imports of the same bytes, of which a
/// read failed in both or in none, and that both ended or did not, expect the same answer; and tables
/// represent a history with the one where they represent it with the other.
pub fn cuts_do_not_show()
    ensures answers { (format : Format) (label : List ℕ) (xs ys : List Outcome) → AreAlike xs ys
        → AreExpectedAlike (Import format label xs) (Import format label ys) }
    ensures tables { (format : Format) (label : List ℕ) (xs ys : List Outcome) → GaveSame xs ys
        → AreRepresentedAlike (Import format label xs) (Import format label ys) }
{}

/// The mark of a history stays where it is: a history whose imports are all by the first grammar has it at
/// its end, one of imports by the second at its start, and imports by the second that follow do not move it.
pub fn the_mark_stays()
    ensures at_end { (h : History) → AreBy First h → IsMarked h }
    ensures at_start { (h : History) → AreBy Second h → IsMarked h }
    ensures stays { (h steps : History) → IsMarked h → AreBy Second steps → IsMarked (h ++ steps) }
{}

/// The first grammar knows no threads: its records have thread 0; and both grammars read alike what has
/// no `thread:` line.
pub fn the_first_grammar_knows_no_thread()
    ensures none { (text : List ℕ) → AllByRecursion HasNoThread (records_of (Callgrind First) text) }
    ensures alike { (text : List ℕ) → HasNoThreadLine text → AreReadAlike text }
{}
