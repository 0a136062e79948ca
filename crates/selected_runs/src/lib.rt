//! Which runs of a store a selection names, and how often their events count in the one that is asked; their cells, with
//! names in place; and what these cost, summed by the numbers of names.
#![tactic(auto)]

// Adds runs one after another (specs/Added.antt).
mod adding;
// What rows cost, within the bound of sums.
mod bounds;
// The cells of a run, with names in place (specs/Named.antt).
mod cells;
// How often the columns of runs count in the event (specs/Counted.antt).
mod counting;
// Names that have to be held.
mod held;
// Laws: what runs that are held tell of their files (specs/Counted.antt).
mod laws;
// The sums with their names.
mod naming;
// The numbers of the names that sums tell.
mod numbers;
// The sums in slots (specs/Slots.antt).
mod part_sums;
// The part of a place that a key tells, by number.
mod parts;
// The sums, the greatest cost first (specs/Ranked.antt).
mod ranked;
// The runs of a selection that an event is asked of (specs/EventRuns.antt).
mod runs_asked;
// Finds the runs of a selection (specs/Selected.antt).
mod selecting;
// What takes rows with names.
mod sinks;
// Laws: named at the end, the sums are those of the rows that were named first, in another order where each name
// is held once.
mod sum_laws;
// What rows cost, added up (specs/Sums.antt).
mod sums;

pub use adding::{RunFold, fold_runs};
pub use bounds::{cost_within, is_within, times_of, weighted_within};
pub use cells::each_named_cell;
pub use counting::{Counted, count_runs};
pub use held::held_name;
pub use laws::{runs_cost_what_files_cost, selections_are_told};
pub use parts::NumberPart;
pub use ranked::RankedSums;
pub use runs_asked::{EventRuns, event_runs, have_event};
pub use selecting::{Numbers, name_text, one_run, select_runs};
pub use sinks::NamedCellSink;
pub use sum_laws::{named_sums_are_those_of_the_rows, once_named_sums_are_those_of_the_rows};
pub use sums::NumberSums;
