// Lines of runs, in the order of their table: those of one run are found at once where this is the order of the runs.
ghost use Rattle.std.specs.Prelude.{◌≡◌, ◌≤◌, ◌↔◌, length, IsTrue};
ghost use Rattle.std.specs.List.{AllAdjacentBelow};
ghost use Rattle.std.specs.List.Sorted.{IsNonDecreasingBy};
ghost use Rattle.run_lists.specs.RunLines.{lines_of_run};

use std::marker::Model;

/// A line of a run.
pub trait OfRun {
    ghost use Rattle.std.specs.Prelude.{◌≡◌, ℕ};

    /// The number of the run.
    ghost run_of: { Self → ℕ };

    /// The number of the run.
    fn run(&self) -> u32
        ensures { result ≡ run_of self.now };
}

/// Lines of runs, which contracts see as the list of them in the order of their table.
#[derive(Drop)]
pub struct RunLines<L: OfRun> {
    lines: Vec<L>,
    /// Whether no line stands before one of an earlier run, as imports write them.
    rising: bool,
}

impl<L: OfRun> Model for RunLines<L> {
    ghost use Rattle.std.specs.Prelude.{◌↔◌, List, IsTrue};
    ghost use Rattle.std.specs.List.Sorted.{IsNonDecreasingBy};

    ghost Value = { List L };

    ghost view = { λ a. a.lines.items };

    ghost invariant = { λ a. IsTrue a.rising ↔ IsNonDecreasingBy L.run_of a.lines.items };
}

/// Whether no line stands before one of an earlier run.
fn do_rise<L: OfRun>(lines: &[L]) -> bool
    ensures { IsTrue result ↔ AllAdjacentBelow (λ a b. L.run_of a ≤ L.run_of b) lines.now (length lines.now) }
{
    for k in 1..lines.len() {
        if lines[k].run() < lines[k - 1].run() {
            return false;
        }
    }
    true
}

/// The lines of a run, among lines in the order of the runs.
fn lines_of<L: OfRun>(lines: &[L], run: u32) -> &[L]
    requires { IsNonDecreasingBy L.run_of lines.now }
    ensures { result.now ≡ lines_of_run L.run_of run lines.now }
{
    let start = lines.partition_point(|line| line.run() < run);
    let rest = &lines[start..];
    let end = rest.partition_point(|line| line.run() <= run);
    &rest[..end]
}

impl<L: OfRun + Drop> RunLines<L> {
    /// The lines of a table, in its order.
    pub fn new(lines: Vec<L>) -> RunLines<L>
        ensures { result ≡ lines.items }
    {
        let rising = do_rise(&lines);
        RunLines { lines, rising }
    }

    /// All lines.
    pub fn all(&self) -> &[L]
        ensures { result.now ≡ self.now }
    {
        &self.lines
    }

    /// Lines among which are all of a run: no others, where they stand in the order of the runs.
    pub fn of_run(&self, run: u32) -> &[L]
        ensures all { lines_of_run L.run_of run result.now ≡ lines_of_run L.run_of run self.now }
        ensures alone { IsNonDecreasingBy L.run_of self.now → result.now ≡ lines_of_run L.run_of run self.now }
    {
        if self.rising {
            lines_of(&self.lines, run)
        } else {
            &self.lines
        }
    }
}
