// The table of routes: its paths, their methods, the parameters and the body that each takes, and what is asked there
// (specs/Places.antt, specs/Parameters.antt, specs/Requests.antt, specs/Asked.antt).
ghost use Rattle.std.specs.Prelude.{◌≡◌, ◌≤◌, length, Ok};
ghost use Rattle.percent_encoding.specs.Percent as percent;
ghost use Rattle.http_exchange.specs.Texts.{shown};
ghost use Rattle.http_exchange.specs.Failings.{IsMet};
ghost use Rattle.http_exchange.specs.Places as spec;
ghost use Rattle.http_exchange.specs.Parameters.{names_of};
ghost use Rattle.http_exchange.specs.Requests as requests;
ghost use Rattle.http_exchange.specs.Asked as asked;

use crate::failings::Failing;
use crate::names::Name;
use crate::numbers::{LIMIT_BOUND, RUN_BOUND, THRESHOLD_BOUND, number, run_in_path};
use crate::parameters::Given;
use crate::texts::part;
use cg_text::{ListVec, UNKNOWN};
use cost_rows::Key;
use percent_encoding::percent_decode;
use profile_records::Kind;
use report_texts::{CallSide, Cut};
use requests::{Command, Query, Selection};
use std::alloc::{AllocError, Global};

/// How many bytes the source of an annotated file has at most.
pub const SOURCE_LIMIT: u64 = 16_777_216;

/// A path of the table of routes. A key in a path is one of the five, so each makes a path of its own.
#[derive(Clone, Copy, Debug, PartialEq, Eq)]
pub enum Place {
    CallgrindRuns,
    FoldedRuns,
    Runs,
    Groups,
    OneRun,
    OneGroup,
    Member,
    Baseline,
    Report(Key),
    Inclusive,
    Calls(CallSide),
    Annotate,
    Subtract(Key),
    Verify,
    Csv,
    Folded,
}

/// A method of the table of routes.
#[derive(Clone, Copy, Debug, PartialEq, Eq)]
pub enum Method {
    Get,
    Post,
    Put,
    Delete,
}

/// The paths of the table.
pub(crate) const PLACES: [Place; 25] = [
    Place::CallgrindRuns,
    Place::FoldedRuns,
    Place::Runs,
    Place::Groups,
    Place::OneRun,
    Place::OneGroup,
    Place::Member,
    Place::Baseline,
    Place::Report(Key::Object),
    Place::Report(Key::File),
    Place::Report(Key::Function),
    Place::Report(Key::Line),
    Place::Report(Key::Thread),
    Place::Inclusive,
    Place::Calls(CallSide::Callers),
    Place::Calls(CallSide::Callees),
    Place::Annotate,
    Place::Subtract(Key::Object),
    Place::Subtract(Key::File),
    Place::Subtract(Key::Function),
    Place::Subtract(Key::Line),
    Place::Subtract(Key::Thread),
    Place::Verify,
    Place::Csv,
    Place::Folded,
];

impl Place {
    /// Its pattern: a name in braces matches one part of at least one byte.
    pub(crate) fn pattern(self) -> &'static str
        ensures { result.now ≡ spec.pattern_of self }
    {
        match self {
            Place::CallgrindRuns => "/runs/callgrind",
            Place::FoldedRuns => "/runs/folded",
            Place::Runs => "/runs",
            Place::Groups => "/groups",
            Place::OneRun => "/runs/{n}",
            Place::OneGroup => "/groups/{g}",
            Place::Member => "/groups/{g}/runs/{n}",
            Place::Baseline => "/groups/{g}/baseline/{n}",
            Place::Report(Key::Object) => "/reports/object",
            Place::Report(Key::File) => "/reports/file",
            Place::Report(Key::Function) => "/reports/function",
            Place::Report(Key::Line) => "/reports/line",
            Place::Report(Key::Thread) => "/reports/thread",
            Place::Inclusive => "/inclusive",
            Place::Calls(CallSide::Callers) => "/callers",
            Place::Calls(CallSide::Callees) => "/callees",
            Place::Annotate => "/annotate",
            Place::Subtract(Key::Object) => "/subtract/object",
            Place::Subtract(Key::File) => "/subtract/file",
            Place::Subtract(Key::Function) => "/subtract/function",
            Place::Subtract(Key::Line) => "/subtract/line",
            Place::Subtract(Key::Thread) => "/subtract/thread",
            Place::Verify => "/verify",
            Place::Csv => "/csv",
            Place::Folded => "/folded",
        }
    }

    /// Its methods, in the order of the table.
    pub(crate) fn methods(self) -> &'static [Method]
        ensures { result.now ≡ spec.methods_of self }
    {
        match self {
            Place::CallgrindRuns => &[Method::Post],
            Place::FoldedRuns => &[Method::Post],
            Place::Runs => &[Method::Get],
            Place::Groups => &[Method::Get],
            Place::OneRun => &[Method::Delete],
            Place::OneGroup => &[Method::Put, Method::Delete],
            Place::Member => &[Method::Put, Method::Delete],
            Place::Baseline => &[Method::Put],
            Place::Report(_) => &[Method::Get],
            Place::Inclusive => &[Method::Get],
            Place::Calls(_) => &[Method::Get],
            Place::Annotate => &[Method::Post],
            Place::Subtract(_) => &[Method::Get],
            Place::Verify => &[Method::Get],
            Place::Csv => &[Method::Get],
            Place::Folded => &[Method::Get],
        }
    }

    /// Its methods as the field `Allow` tells them.
    pub fn allow(self) -> &'static str
        ensures text { result.now ≡ spec.joined (spec.methods_of self) }
        ensures short { length result.now ≤ 32 }
    {
        match self {
            Place::CallgrindRuns => "POST",
            Place::FoldedRuns => "POST",
            Place::Runs => "GET",
            Place::Groups => "GET",
            Place::OneRun => "DELETE",
            Place::OneGroup => "PUT, DELETE",
            Place::Member => "PUT, DELETE",
            Place::Baseline => "PUT",
            Place::Report(_) => "GET",
            Place::Inclusive => "GET",
            Place::Calls(_) => "GET",
            Place::Annotate => "POST",
            Place::Subtract(_) => "GET",
            Place::Verify => "GET",
            Place::Csv => "GET",
            Place::Folded => "GET",
        }
    }
}

impl Method {
    /// Its text, as it stands in a request.
    fn text(self) -> &'static str
        ensures { result.now ≡ spec.method_text self }
    {
        match self {
            Method::Get => "GET",
            Method::Post => "POST",
            Method::Put => "PUT",
            Method::Delete => "DELETE",
        }
    }
}

/// The method of this text, among those of a path.
pub(crate) fn method_in(methods: &[Method], text: &[u8]) -> Option<Method>
    ensures { result ≡ spec.method_in methods.now text.now }
{
    for method in methods {
        if method.text().as_bytes() == text {
            return Some(*method);
        }
    }
    None
}

/// The names of the parameters that a place takes.
pub(crate) fn names(place: Place) -> &'static [Name]
    ensures { result.now ≡ names_of place }
{
    match place {
        Place::CallgrindRuns => &[Name::Label],
        Place::FoldedRuns => &[Name::Label],
        Place::Report(_) => &[
            Name::Event,
            Name::Run,
            Name::Group,
            Name::Limit,
            Name::Threshold,
        ],
        Place::Inclusive => &[Name::Event, Name::Run, Name::Group],
        Place::Calls(_) => &[
            Name::Event,
            Name::Function,
            Name::Object,
            Name::Run,
            Name::Group,
        ],
        Place::Annotate => &[Name::Event, Name::File, Name::Run, Name::Group],
        Place::Subtract(_) => &[
            Name::Event,
            Name::Run,
            Name::Group,
            Name::LessRun,
            Name::LessGroup,
        ],
        Place::Verify => &[Name::Run, Name::Group],
        Place::Csv => &[Name::Run, Name::Group],
        Place::Folded => &[Name::Run, Name::Group],
        _ => &[],
    }
}

/// How many bytes a body has at most, where files have at most `limit`; `None` where no body is read.
pub(crate) fn body_limit(limit: u64, place: Place) -> Option<u64>
    ensures { result ≡ requests.body_limit limit place }
{
    match place {
        Place::CallgrindRuns => Some(limit),
        Place::FoldedRuns => Some(limit),
        Place::Annotate => Some(SOURCE_LIMIT),
        _ => None,
    }
}

/// What a request asks for, but for its body.
pub type PathCommand = Command<(), ListVec<u8>>;

/// Which runs a request is about.
type Selected = Selection<ListVec<u8>>;

/// A text, percent-decoded.
fn decoded(alloc: Global, text: &[u8]) -> Result<ListVec<u8>, Failing>
    ensures { IsMet (Ok (percent.percent_decode text.now)) result }
{
    let mut bytes = Vec::new(alloc);
    match percent_decode(text).append_to(&mut bytes) {
        Ok(()) => Ok(ListVec::from_vec(bytes)),
        Err(AllocError) => Err(Failing::NoMemory),
    }
}

/// The value of a parameter that has to be there.
fn text(alloc: Global, given: &Given<'_>, name: Name) -> Result<ListVec<u8>, Failing>
    ensures { IsMet (asked.text_of (asked.value_of name given.now)) result }
{
    match given.value(name) {
        Some(value) => decoded(alloc, value),
        None => Err(Failing::BadRequest),
    }
}

/// The number that the value of a parameter is.
fn number_in(alloc: Global, bound: u64, value: &[u8]) -> Result<u64, Failing>
    ensures { IsMet (asked.number_in bound value.now) result }
{
    let text = decoded(alloc, value)?;
    number(bound, text.as_slice()).ok_or(Failing::BadRequest)
}

/// A run, by the value of a parameter.
fn run(alloc: Global, value: &[u8]) -> Result<Option<Selected>, Failing>
    ensures { IsMet (asked.some_run value.now) result }
{
    let number = number_in(alloc, RUN_BOUND, value)?;
    Ok(Some(Selection::Run(number as u32)))
}

/// A run or a group, by the values of two parameters; `None` where neither is given.
fn run_or_group(
    alloc: Global,
    run_value: Option<&[u8]>,
    group_value: Option<&[u8]>,
) -> Result<Option<Selected>, Failing>
    ensures { IsMet (asked.run_or_group (shown run_value.entry) (shown group_value.entry)) result }
{
    match run_value {
        Some(value) => match group_value {
            Some(_) => Err(Failing::BadRequest),
            None => run(alloc, value),
        },
        None => match group_value {
            Some(value) => Ok(Some(Selection::Group(decoded(alloc, value)?))),
            None => Ok(None),
        },
    }
}

/// Which runs the request is about.
fn selected_by(alloc: Global, given: &Given<'_>) -> Result<Selected, Failing>
    ensures { IsMet (asked.selected_by given.now) result }
{
    match run_or_group(alloc, given.value(Name::Run), given.value(Name::Group))? {
        Some(one) => Ok(one),
        None => Ok(Selection::All),
    }
}

/// How much of a report is shown.
fn cut(alloc: Global, given: &Given<'_>) -> Result<Cut, Failing>
    ensures { IsMet (asked.cut_by given.now) result }
{
    let limit = limit(alloc, given.value(Name::Limit))?;
    let threshold = threshold(alloc, given.value(Name::Threshold))?;
    Ok(Cut { limit, threshold })
}

/// The limit of a report.
fn limit(alloc: Global, value: Option<&[u8]>) -> Result<Option<u64>, Failing>
    ensures { IsMet (asked.limit_in (shown value.entry)) result }
{
    match value {
        Some(value) => {
            let limit = number_in(alloc, LIMIT_BOUND, value)?;
            Ok(Some(limit))
        }
        None => Ok(None),
    }
}

/// The threshold of a report in percent, 100 where it is not given.
fn threshold(alloc: Global, value: Option<&[u8]>) -> Result<u8, Failing>
    ensures { IsMet (asked.threshold_in (shown value.entry)) result }
{
    match value {
        Some(value) => {
            let threshold = number_in(alloc, THRESHOLD_BOUND, value)?;
            Ok(threshold as u8)
        }
        None => Ok(100),
    }
}

/// The import of a file, which is the body.
fn import(alloc: Global, kind: Kind, given: &Given<'_>) -> Result<PathCommand, Failing>
    ensures { IsMet (asked.import_by kind given.now) result }
{
    let label = text(alloc, given, Name::Label)?;
    Ok(Command::Import {
        kind,
        label,
        source: (),
    })
}

/// A report by a key.
fn by(alloc: Global, key: Key, given: &Given<'_>) -> Result<PathCommand, Failing>
    ensures { IsMet (asked.report_by key given.now) result }
{
    let event = text(alloc, given, Name::Event)?;
    let selection = selected_by(alloc, given)?;
    let cut = cut(alloc, given)?;
    Ok(Command::Ask(Query::By {
        selection,
        key,
        event,
        cut,
    }))
}

/// A report of inclusive costs.
fn inclusive(alloc: Global, given: &Given<'_>) -> Result<PathCommand, Failing>
    ensures { IsMet (asked.inclusive_by given.now) result }
{
    let event = text(alloc, given, Name::Event)?;
    let selection = selected_by(alloc, given)?;
    Ok(Command::Ask(Query::Inclusive { selection, event }))
}

/// The object of a function, `???` where it is not given.
fn object(alloc: Global, value: Option<&[u8]>) -> Result<ListVec<u8>, Failing>
    ensures { IsMet (Ok (asked.object_in (shown value.entry))) result }
{
    match value {
        Some(value) => decoded(alloc, value),
        None => match Vec::from_slice(alloc, UNKNOWN) {
            Ok(bytes) => Ok(ListVec::from_vec(bytes)),
            Err(AllocError) => Err(Failing::NoMemory),
        },
    }
}

/// A report of the calls that have one side at a function.
fn calls(alloc: Global, side: CallSide, given: &Given<'_>) -> Result<PathCommand, Failing>
    ensures { IsMet (asked.calls_by side given.now) result }
{
    let event = text(alloc, given, Name::Event)?;
    let function = text(alloc, given, Name::Function)?;
    let object = object(alloc, given.value(Name::Object))?;
    let selection = selected_by(alloc, given)?;
    let query = match side {
        CallSide::Callers => Query::Callers {
            selection,
            event,
            object,
            function,
        },
        CallSide::Callees => Query::Callees {
            selection,
            event,
            object,
            function,
        },
    };
    Ok(Command::Ask(query))
}

/// The listing of a source, which is the body.
fn annotate(alloc: Global, given: &Given<'_>) -> Result<PathCommand, Failing>
    ensures { IsMet (asked.annotate_by given.now) result }
{
    let event = text(alloc, given, Name::Event)?;
    let file = text(alloc, given, Name::File)?;
    let selection = selected_by(alloc, given)?;
    Ok(Command::Annotate {
        selection,
        event,
        file,
        source: (),
    })
}

/// A report of differences by a key.
fn subtract(alloc: Global, key: Key, given: &Given<'_>) -> Result<PathCommand, Failing>
    ensures { IsMet (asked.subtract_by key given.now) result }
{
    let event = text(alloc, given, Name::Event)?;
    let first = selected_by(alloc, given)?;
    let less_run = given.value(Name::LessRun);
    let less_group = given.value(Name::LessGroup);
    let second = run_or_group(alloc, less_run, less_group)?;
    Ok(Command::Ask(Query::Subtract {
        first,
        second,
        key,
        event,
    }))
}

/// Whether a method is `PUT`.
fn is_put(method: Method) -> bool
    ensures { result ≡ asked.is_put method }
{
    match method {
        Method::Get => false,
        Method::Post => false,
        Method::Put => true,
        Method::Delete => false,
    }
}

/// What is asked of a group.
fn of_group(alloc: Global, method: Method, path: &[u8]) -> Result<PathCommand, Failing>
    ensures { IsMet (Ok (asked.of_group method path.now)) result }
{
    let group = decoded(alloc, part(path, 2))?;
    if is_put(method) {
        Ok(Command::MakeGroup(group))
    } else {
        Ok(Command::DropGroup(group))
    }
}

/// What is asked of a run and a group.
fn of_member(alloc: Global, method: Method, path: &[u8]) -> Result<PathCommand, Failing>
    ensures { IsMet (Ok (asked.of_member method path.now)) result }
{
    let group = decoded(alloc, part(path, 2))?;
    let number = run_in_path(part(path, 4));
    if is_put(method) {
        Ok(Command::Join(group, number))
    } else {
        Ok(Command::Leave(group, number))
    }
}

/// The run that is to be the baseline of a group.
fn baseline(alloc: Global, path: &[u8]) -> Result<PathCommand, Failing>
    ensures { IsMet (Ok (asked.baseline_of path.now)) result }
{
    let group = decoded(alloc, part(path, 2))?;
    Ok(Command::SetBaseline(group, run_in_path(part(path, 4))))
}

/// What is asked at a place by one of its methods, with these parameters.
pub(crate) fn asked_at(
    alloc: Global,
    place: Place,
    method: Method,
    path: &[u8],
    given: &Given<'_>,
) -> Result<PathCommand, Failing>
    ensures { IsMet (asked.asked_of place method path.now given.now) result }
{
    match place {
        Place::CallgrindRuns => import(alloc, Kind::Callgrind, given),
        Place::FoldedRuns => import(alloc, Kind::Folded, given),
        Place::Runs => Ok(Command::Ask(Query::Runs)),
        Place::Groups => Ok(Command::Ask(Query::Groups)),
        Place::OneRun => Ok(Command::Remove(run_in_path(part(path, 2)))),
        Place::OneGroup => of_group(alloc, method, path),
        Place::Member => of_member(alloc, method, path),
        Place::Baseline => baseline(alloc, path),
        Place::Report(key) => by(alloc, key, given),
        Place::Inclusive => inclusive(alloc, given),
        Place::Calls(side) => calls(alloc, side, given),
        Place::Annotate => annotate(alloc, given),
        Place::Subtract(key) => subtract(alloc, key, given),
        Place::Verify => Ok(Command::Ask(Query::Verify(selected_by(alloc, given)?))),
        Place::Csv => Ok(Command::Ask(Query::Csv(selected_by(alloc, given)?))),
        Place::Folded => Ok(Command::Ask(Query::Folded(selected_by(alloc, given)?))),
    }
}
