// Questions to a warehouse.
ghost use Rattle.std.specs.Prelude.{◌≡◌};
ghost use Rattle.requests.specs.Plain.{plain_query};

use crate::selections::{Selection, lent_second};
use cg_text::ListVec;
use cost_rows::Key;
use report_texts::Cut;

/// A question to a warehouse.
#[derive(Drop)]
pub enum Query<N> {
    /// Which runs are held.
    Runs,
    /// Which groups are there, with their baselines and members.
    Groups,
    /// Where the cost of an event went, by key.
    By {
        selection: Selection<N>,
        key: Key,
        event: N,
        cut: Cut,
    },
    /// What functions cost with all that they call.
    Inclusive {
        selection: Selection<N>,
        event: N,
    },
    /// Who calls a function of an object.
    Callers {
        selection: Selection<N>,
        event: N,
        object: N,
        function: N,
    },
    /// Whom a function of an object calls.
    Callees {
        selection: Selection<N>,
        event: N,
        object: N,
        function: N,
    },
    /// What the runs of the first selection cost less what those of the second do, by key. Without a
    /// second one it is the baseline of the first, a group.
    Subtract {
        first: Selection<N>,
        second: Option<Selection<N>>,
        key: Key,
        event: N,
    },
    /// What the sums of runs are beside the totals that their files state.
    Verify(Selection<N>),
    /// What each line of a source costs, by the name of its file in the runs.
    Annotate {
        selection: Selection<N>,
        event: N,
        file: N,
        source: N,
    },
    /// The self costs of all events, as CSV.
    Csv(Selection<N>),
    /// The stacks of folded runs, with their counts.
    Folded(Selection<N>),
}

impl Query<ListVec<u8>> {
    /// The same, with its names lent.
    pub fn lent(&self) -> Query<&[u8]>
        ensures { plain_query result ≡ self.now }
    {
        match self {
            Query::Runs => Query::Runs,
            Query::Groups => Query::Groups,
            Query::By {
                selection,
                key,
                event,
                cut,
            } => Query::By {
                selection: selection.lent(),
                key: *key,
                event: event.as_slice(),
                cut: *cut,
            },
            Query::Inclusive { selection, event } => Query::Inclusive {
                selection: selection.lent(),
                event: event.as_slice(),
            },
            Query::Callers {
                selection,
                event,
                object,
                function,
            } => Query::Callers {
                selection: selection.lent(),
                event: event.as_slice(),
                object: object.as_slice(),
                function: function.as_slice(),
            },
            Query::Callees {
                selection,
                event,
                object,
                function,
            } => Query::Callees {
                selection: selection.lent(),
                event: event.as_slice(),
                object: object.as_slice(),
                function: function.as_slice(),
            },
            Query::Subtract {
                first,
                second,
                key,
                event,
            } => Query::Subtract {
                first: first.lent(),
                second: lent_second(second),
                key: *key,
                event: event.as_slice(),
            },
            Query::Verify(selection) => Query::Verify(selection.lent()),
            Query::Annotate {
                selection,
                event,
                file,
                source,
            } => Query::Annotate {
                selection: selection.lent(),
                event: event.as_slice(),
                file: file.as_slice(),
                source: source.as_slice(),
            },
            Query::Csv(selection) => Query::Csv(selection.lent()),
            Query::Folded(selection) => Query::Folded(selection.lent()),
        }
    }
}
