// Which histories a store has: laws of the definitions, each the contract of a function that does
// nothing.
ghost use Rattle.std.specs.Prelude.{[], ◌++◌, List, IsTrue};
ghost use Rattle.callgrind_reader.specs.Grammars.{Second};
ghost use Rattle.plain_tables.specs.Tables.{Tables, new_tables};
ghost use Rattle.run_stores.specs.Calls.{Holds, IsUsable, LeavesJust, Represents};
ghost use Rattle.histories.specs.History.{History, Command, with_step};
ghost use Rattle.histories.specs.Marks.{AreBy, IsMarked};
ghost use Rattle.histories.specs.Representation.{TablesRepresent};
ghost use Rattle.histories.specs.declared.answers.Answer.{Answer};
ghost use Rattle.histories.specs.declared.limits.Limits.{Limits};
ghost use Rattle.histories.specs.Answered.{HasHistory, RepresentsHistory, Answers, Links, is_accepted};
ghost use Rattle.histories.specs.Left.{LeavesHistory};
ghost use Rattle.warehouse.specs.Answered.{AreCommandsOf, Lent};

use byte_io::Source;
use histories::the_mark_stays;
use run_stores::RunStore;

/// A new store has the empty history, and one that is opened has each history that its lines tell. What was
/// said and answered survives: as long as the store can be used, a crash between commands leaves lines that
/// tell all of it. A command that was answered with a change is durable: a crash from then on leaves lines
/// with it.
pub fn histories_survive<S: RunStore>()
    ensures new { (store : S) → Represents S.StoreState new_tables store → HasHistory S.StoreState [] store }
    ensures opened { (h : History) (t : Tables) (store : S) → TablesRepresent h t → Represents S.StoreState t store → HasHistory S.StoreState h store }
    ensures survives { (h : History) (store : S) → HasHistory S.StoreState h store → IsUsable S.StoreState store
        → LeavesJust S.StoreState store (Holds S.StoreState (TablesRepresent h)) }
    ensures durable { (limits : Limits) (command : Command) (answer : Answer) (h : History) (old new : S) → Answers S.StoreState limits command answer old new
        → IsTrue (is_accepted answer) → HasHistory S.StoreState h old
        → LeavesJust S.StoreState new (Holds S.StoreState (TablesRepresent (with_step h command answer))) }
{}

/// A crash between commands or after them, however they were answered and also once a failure has made the
/// store unusable, leaves lines that tell the history; or what was before a command that was refused since
/// memory or the store failed, with it done, as long as no later command was answered with a change.
pub fn crashes_leave_a_history<S: RunStore>()
    ensures represents { (limits : Limits) (h : History) (store : S) → RepresentsHistory S.StoreState h store → LeavesHistory S.StoreState limits h store }
    ensures goes_on { (limits : Limits) (h steps : History) (old new : S) → HasHistory S.StoreState h old → LeavesHistory S.StoreState limits h old
        → Links S.StoreState limits steps old new → LeavesHistory S.StoreState limits (h ++ steps) new }
{}

/// What this program imports it reads by the second grammar, so commands keep the mark of a history.
pub fn commands_keep_the_mark<R: Source>()
    ensures second { (list : List (Lent R)) (steps : History) → AreCommandsOf R.reads list steps → AreBy Second steps }
    ensures marked { (h : History) (list : List (Lent R)) (steps : History) → IsMarked h → AreCommandsOf R.reads list steps → IsMarked (h ++ steps) }
{
    the_mark_stays();
}
