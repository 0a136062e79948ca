// What the files of a store hold for whoever opens them next: a law of the definitions, the contract of a function that
// does nothing.
ghost use Rattle.std.specs.Prelude.{[]};
ghost use Rattle.sqlite_wal.specs.Recovery.{Image};
ghost use Rattle.plain_tables.specs.Tables.{new_tables};
ghost use Rattle.histories.specs.History.{History};
ghost use Rattle.histories.specs.Left.{LeavesHistory};
ghost use Rattle.histories.specs.declared.limits.Limits.{Limits};
ghost use Rattle.page_runs.specs.States.{Left, may_leave, state_of};
ghost use Rattle.page_runs.specs.declared.store.PageRuns.{PageRuns};
ghost use Rattle.store_paths.specs.Opened.{HoldHistory, HoldLeft};
ghost use Rattle.store_paths.specs.Shown.{HoldsInOrder, HoldsRows};

use sqlite_disk::Disk;

/// What a store in pages leaves, the next opening finds: where a crash leaves rows of a history, files as it leaves them hold
/// a history as a `PathOpener` asks for it, this one or what may become of it; and so do those of a new store, the empty one.
pub fn stores_leave_what_is_opened<D: Disk>()
    ensures left { (limits : Limits) (h : History) (store : PageRuns D D.Disk) → LeavesHistory state_of limits h store
        → (left : Left) → may_leave store left → HoldLeft (HoldsInOrder left.1) limits h }
    ensures new { (image : Image) → HoldsRows image new_tables → HoldHistory (HoldsInOrder image) [] }
{}
