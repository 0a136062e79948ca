// The subcommands: a row of the table for each, and the plan that is made of its words.
ghost use Rattle.std.specs.Prelude.{◌≡◌, ◌≢◌, false, codes, map, string_bytes, IfNone, IfOk, IfErr, IfSome, Some};
ghost use Rattle.clap.specs.Words.{app_of, found_of, rows_of, subcommand_rows_of};
ghost use Rattle.clap.specs.declared.builder.command.Command.TheViews.{out-Command as fields_of};
ghost use Rattle.command_line.specs.Grammar.{IsCommandLine};
ghost use Rattle.command_line.specs.Plans.{HasMember, HasNoPlan, HasWord, HasRun, IsOneOf, IsRunNumber, IsPlanned, IsPlannedFor, IsPlanFor, NoneIs};
ghost use Rattle.command_line.specs.Plans.{AreApart, IsEndFound, IsEndFor, call_reports, exports, memberships, reports, small_plans};

use crate::grammar::{
    Argument, Form, LAST_RUN, MAX_PERCENT, MOST_BYTES, MOST_REQUESTS, Subcommand, Takes, grammar,
};
use crate::plans::{Plan, PlanEnd};
use crate::words::{
    files, is_given, key, less, less_run_and_less_group, limit, most_bytes, port, requests, run,
    run_and_group, runs, selection, threshold, word,
};
use clap::error::ErrorKind;
use clap::{ArgMatches, Command};
use profile_records::Kind;
use std::alloc::{AllocError, Global};

/// An argument that takes any words, and has no default.
const ANY: Argument = Argument {
    id: "",
    form: Form::Operand,
    takes: Takes::Texts,
    default: None,
    help: "",
};

/// The numbers that a run may have.
const RUN_NUMBERS: Takes = Takes::Numbers(1, LAST_RUN);

/// An option that selects one run.
const A_RUN: Argument = Argument {
    form: Form::Option("N"),
    takes: RUN_NUMBERS,
    ..ANY
};

/// An option that selects the runs of a group.
const A_GROUP: Argument = Argument {
    form: Form::Option("NAME"),
    ..ANY
};

const DATABASE: Argument = Argument {
    id: "db",
    form: Form::Required("D"),
    help: "The store, made if there is none; no other program may have it open",
    ..ANY
};

const RUN: Argument = Argument {
    id: "run",
    help: "Only this run; `runs` lists the numbers",
    ..A_RUN
};

const GROUP: Argument = Argument {
    id: "group",
    help: "Only the runs of this group; with neither option, all runs",
    ..A_GROUP
};

const LESS_RUN: Argument = Argument {
    id: "less-run",
    help: "Take off the costs of this run",
    ..A_RUN
};

const LESS_GROUP: Argument = Argument {
    id: "less-group",
    help: "Take off the costs of this group; with neither, those of the baseline of --group",
    ..A_GROUP
};

const EVENT: Argument = Argument {
    id: "event",
    form: Form::Required("E"),
    help: "The event, as Ir or samples; `verify` lists all but derived ones",
    ..ANY
};

const LIMIT: Argument = Argument {
    id: "limit",
    form: Form::Option("L"),
    takes: Takes::Numbers(0, u32::MAX),
    help: "Show at most this many rows, and the rest as one",
    ..ANY
};

const THRESHOLD: Argument = Argument {
    id: "threshold",
    form: Form::Option("T"),
    takes: Takes::Numbers(0, MAX_PERCENT as u32),
    default: Some("100"),
    help: "Show rows until they make up this percentage of the total, and the rest as one",
    ..ANY
};

const KEY: Argument = Argument {
    id: "KEY",
    form: Form::Operand,
    takes: Takes::Keys,
    help: "What costs are added up by",
    ..ANY
};

const OBJECT: Argument = Argument {
    id: "object",
    form: Form::Option("O"),
    default: Some("???"),
    help: "The object of the function, as `by object` prints it; most profiles name one",
    ..ANY
};

const FUNCTION: Argument = Argument {
    id: "FUNCTION",
    form: Form::Operand,
    help: "The name of the function",
    ..ANY
};

const OF_GROUP: Argument = Argument {
    id: "NAME",
    form: Form::Operand,
    help: "The name of a group",
    ..ANY
};

const MEMBER: Argument = Argument {
    id: "N",
    form: Form::Operand,
    takes: RUN_NUMBERS,
    help: "The number of a run",
    ..ANY
};

const PORT: Argument = Argument {
    id: "port",
    form: Form::Option("P"),
    takes: Takes::Numbers(0, u16::MAX as u32),
    default: Some("8090"),
    help: "The port of 127.0.0.1; 0 takes a free one",
    ..ANY
};

const REQUESTS: Argument = Argument {
    id: "requests",
    form: Form::Required("N"),
    takes: Takes::Numbers(1, MOST_REQUESTS),
    help: "End after this many requests, 1 to 1000000; let a service manager start it again",
    ..ANY
};

const MOST_ANSWERED: Argument = Argument {
    id: "most-bytes",
    form: Form::Option("N"),
    takes: Takes::Numbers(1, MOST_BYTES),
    default: Some("268435456"),
    help: "Refuse an answer of more bytes as out of memory",
    ..ANY
};

/// The subcommands that read files, and the one that lists what was imported. Help lists those of this
/// table first, then those of the next ones, each in the order of its rows.
pub static IMPORTS: [Subcommand; 3] = [
    Subcommand {
        name: "total",
        about: "Print the sum of each event of a Callgrind file",
        example: "Example: profhouse total callgrind.out.4711",
        arguments: &[Argument {
            id: "FILE",
            form: Form::Operand,
            help: "A file in the Callgrind format",
            ..ANY
        }],
    },
    Subcommand {
        name: "import",
        about: "Import profile files",
        example: "Example: profhouse import --db s.db callgrind.out.4711 callgrind.out.4712",
        arguments: &[
            DATABASE,
            Argument {
                id: "folded",
                form: Form::Flag,
                help: "The files hold folded stacks",
                ..ANY
            },
            Argument {
                id: "FILE",
                form: Form::Operands,
                help: "The files; each becomes a run, labelled for ever with its name",
                ..ANY
            },
        ],
    },
    Subcommand {
        name: "runs",
        about: "List the runs",
        example: "Example: profhouse runs --db s.db",
        arguments: &[DATABASE],
    },
];

/// The subcommands that report costs.
pub static COSTS: [Subcommand; 2] = [
    Subcommand {
        name: "by",
        about: "Report self costs by object, file, function, line or thread; those of several runs are added up",
        example: "Example: profhouse by --db s.db --event Ir function",
        arguments: &[DATABASE, RUN, GROUP, EVENT, LIMIT, THRESHOLD, KEY],
    },
    Subcommand {
        name: "inclusive",
        about: "Report what functions cost with all that they call",
        example: "Example: profhouse inclusive --db s.db --event Ir",
        arguments: &[DATABASE, RUN, GROUP, EVENT],
    },
];

/// The subcommands that report calls.
pub static CALLS: [Subcommand; 2] = [
    Subcommand {
        name: "callers",
        about: "Report who calls a function",
        example: "Example: profhouse callers --db s.db --event Ir --object /tmp/a.out main",
        arguments: &[DATABASE, RUN, GROUP, EVENT, OBJECT, FUNCTION],
    },
    Subcommand {
        name: "callees",
        about: "Report whom a function calls",
        example: "Example: profhouse callees --db s.db --event Ir --object /tmp/a.out main",
        arguments: &[DATABASE, RUN, GROUP, EVENT, OBJECT, FUNCTION],
    },
];

/// The subcommands that compare costs.
pub static COMPARISONS: [Subcommand; 2] = [
    Subcommand {
        name: "subtract",
        about: "Report how self costs differ; to compare two builds, give --run N --less-run M",
        example: "Example: profhouse subtract --db s.db --run 2 --less-run 1 --event Ir function",
        arguments: &[DATABASE, RUN, GROUP, LESS_RUN, LESS_GROUP, EVENT, KEY],
    },
    Subcommand {
        name: "verify",
        about: "Compare sums of costs with the totals that files state",
        example: "Example: profhouse verify --db s.db",
        arguments: &[DATABASE, RUN, GROUP],
    },
];

/// The subcommands that write costs out in other forms.
pub static EXPORTS: [Subcommand; 3] = [
    Subcommand {
        name: "annotate",
        about: "Show a source with the cost of each of its lines",
        example: "Example: profhouse annotate --db s.db --event Ir --file a.c src/a.c",
        arguments: &[
            DATABASE,
            RUN,
            GROUP,
            EVENT,
            Argument {
                id: "file",
                form: Form::Required("NAME"),
                help: "The file, as `by file` prints it, with its whole path",
                ..ANY
            },
            Argument {
                id: "SOURCE",
                form: Form::Operand,
                help: "The path of the source",
                ..ANY
            },
        ],
    },
    Subcommand {
        name: "csv",
        about: "Write self costs by object, file, function, line and event as CSV",
        example: "Example: profhouse csv --db s.db --run 1",
        arguments: &[DATABASE, RUN, GROUP],
    },
    Subcommand {
        name: "folded",
        about: "Write the stacks of folded runs, for flamegraph.pl or speedscope; Callgrind runs have none",
        example: "Example: profhouse folded --db s.db",
        arguments: &[DATABASE, RUN, GROUP],
    },
];

/// The subcommands about groups.
pub static GROUPS: [Subcommand; 5] = [
    Subcommand {
        name: "group",
        about: "Make a group, or drop one",
        example: "Example: profhouse group --db s.db nightly",
        arguments: &[
            DATABASE,
            Argument {
                id: "drop",
                form: Form::Flag,
                help: "Drop the group",
                ..ANY
            },
            Argument {
                id: "NAME",
                form: Form::Operand,
                help: "The name of the group",
                ..ANY
            },
        ],
    },
    Subcommand {
        name: "join",
        about: "Add a run to a group",
        example: "Example: profhouse join --db s.db nightly 1",
        arguments: &[DATABASE, OF_GROUP, MEMBER],
    },
    Subcommand {
        name: "leave",
        about: "Remove a run from a group",
        example: "Example: profhouse leave --db s.db nightly 1",
        arguments: &[DATABASE, OF_GROUP, MEMBER],
    },
    Subcommand {
        name: "baseline",
        about: "Make a run the baseline of a group",
        example: "Example: profhouse baseline --db s.db nightly 1",
        arguments: &[DATABASE, OF_GROUP, MEMBER],
    },
    Subcommand {
        name: "groups",
        about: "List the groups",
        example: "Example: profhouse groups --db s.db",
        arguments: &[DATABASE],
    },
];

/// The subcommands that remove runs from a store, or serve it.
pub static UPKEEP: [Subcommand; 2] = [
    Subcommand {
        name: "remove",
        about: "Remove runs",
        example: "Example: profhouse remove --db s.db 2",
        arguments: &[
            DATABASE,
            Argument {
                id: "N",
                form: Form::Operands,
                takes: RUN_NUMBERS,
                help: "The numbers of the runs",
                ..ANY
            },
        ],
    },
    Subcommand {
        name: "serve",
        about: "Answer requests over HTTP",
        example: "Example: profhouse serve --db s.db --requests 100",
        arguments: &[
            DATABASE,
            PORT,
            REQUESTS,
            MOST_ANSWERED,
            Argument {
                id: "log",
                form: Form::Flag,
                help: "Write one line on standard error for each served request",
                ..ANY
            },
        ],
    },
];

/// Files to be imported.
fn import<'a>(
    alloc: Global,
    db: &'a str,
    words: &ArgMatches<'a>,
) -> Result<Option<Plan<'a>>, AllocError>
    requires { HasWord (rows_of (found_of words.now)) (codes "db") db.now }
    ensures planned { IfOk result (λ found. IfSome found (IsPlanned (codes "import") (rows_of (found_of words.now)))) }
    ensures none { IfOk result (λ found. IfNone found (HasNoPlan (Some (codes "import", rows_of (found_of words.now))))) }
{
    let Some(files) = files(alloc, words)? else {
        return Ok(None);
    };
    let kind = if is_given(words, "folded") {
        Kind::Folded
    } else {
        Kind::Callgrind
    };
    Ok(Some(Plan::Import { db, kind, files }))
}

/// Runs to be removed.
fn remove<'a>(
    alloc: Global,
    db: &'a str,
    words: &ArgMatches<'a>,
) -> Result<Option<Plan<'a>>, AllocError>
    requires { HasWord (rows_of (found_of words.now)) (codes "db") db.now }
    ensures planned { IfOk result (λ found. IfSome found (IsPlanned (codes "remove") (rows_of (found_of words.now)))) }
    ensures none { IfOk result (λ found. IfNone found (HasNoPlan (Some (codes "remove", rows_of (found_of words.now))))) }
{
    match runs(alloc, words)? {
        Some(numbers) => Ok(Some(Plan::Remove { db, numbers })),
        None => Ok(None),
    }
}

/// A group to be made or dropped.
fn group<'a>(db: &'a str, words: &ArgMatches<'a>) -> Option<Plan<'a>>
    requires { HasWord (rows_of (found_of words.now)) (codes "db") db.now }
    ensures planned { IfSome result (IsPlanned (codes "group") (rows_of (found_of words.now))) }
    ensures none { IfNone result (HasNoPlan (Some (codes "group", rows_of (found_of words.now)))) }
{
    let name = word(words, "NAME")?;
    let drop = is_given(words, "drop");
    Some(Plan::Group { db, drop, name })
}

/// The group and the run that were named.
fn group_and_run<'a>(words: &ArgMatches<'a>) -> Option<(&'a str, u32)>
    ensures range { IfSome result (λ found. IsRunNumber found.1) }
    ensures name { IfSome result (λ found. HasWord (rows_of (found_of words.now)) (codes "NAME") found.0.now) }
    ensures number { IfSome result (λ found. HasRun (rows_of (found_of words.now)) found.1) }
    ensures none { IfNone result (NoneIs (HasMember (rows_of (found_of words.now)))) }
{
    let name = word(words, "NAME")?;
    let number = run(words)?;
    Some((name, number))
}

/// What a run and a group are to each other from now on.
fn member<'a>(subcommand: &str, db: &'a str, words: &ArgMatches<'a>) -> Option<Plan<'a>>
    requires { HasWord (rows_of (found_of words.now)) (codes "db") db.now }
    ensures planned { IfSome result (IsPlanned subcommand.now (rows_of (found_of words.now))) }
    ensures none { IfNone result (IsOneOf memberships subcommand.now → HasNoPlan (Some (subcommand.now, rows_of (found_of words.now)))) }
{
    let (name, number) = group_and_run(words)?;
    match subcommand {
        "join" => Some(Plan::Join { db, name, number }),
        "leave" => Some(Plan::Leave { db, name, number }),
        "baseline" => Some(Plan::Baseline { db, name, number }),
        _ => None,
    }
}

/// A report by a key.
fn by<'a>(db: &'a str, words: &ArgMatches<'a>) -> Option<Plan<'a>>
    requires { HasWord (rows_of (found_of words.now)) (codes "db") db.now }
    ensures planned { IfSome result (IsPlanned (codes "by") (rows_of (found_of words.now))) }
    ensures none { IfNone result (HasNoPlan (Some (codes "by", rows_of (found_of words.now)))) }
{
    Some(Plan::By {
        db,
        selection: selection(words)?,
        event: word(words, "event")?,
        limit: limit(words)?,
        threshold: threshold(words)?,
        key: key(words)?,
    })
}

/// A report of inclusive costs.
fn inclusive<'a>(db: &'a str, words: &ArgMatches<'a>) -> Option<Plan<'a>>
    requires { HasWord (rows_of (found_of words.now)) (codes "db") db.now }
    ensures planned { IfSome result (IsPlanned (codes "inclusive") (rows_of (found_of words.now))) }
    ensures none { IfNone result (HasNoPlan (Some (codes "inclusive", rows_of (found_of words.now)))) }
{
    let selection = selection(words)?;
    let event = word(words, "event")?;
    Some(Plan::Inclusive {
        db,
        selection,
        event,
    })
}

/// A report of the calls that have one side at a function.
fn calls<'a>(subcommand: &str, db: &'a str, words: &ArgMatches<'a>) -> Option<Plan<'a>>
    requires { HasWord (rows_of (found_of words.now)) (codes "db") db.now }
    ensures planned { IfSome result (IsPlanned subcommand.now (rows_of (found_of words.now))) }
    ensures none { IfNone result (IsOneOf call_reports subcommand.now → HasNoPlan (Some (subcommand.now, rows_of (found_of words.now)))) }
{
    let selection = selection(words)?;
    let event = word(words, "event")?;
    let object = word(words, "object")?;
    let function = word(words, "FUNCTION")?;
    match subcommand {
        "callers" => Some(Plan::Callers {
            db,
            selection,
            event,
            object,
            function,
        }),
        "callees" => Some(Plan::Callees {
            db,
            selection,
            event,
            object,
            function,
        }),
        _ => None,
    }
}

/// A report of differences by a key.
fn subtract<'a>(db: &'a str, words: &ArgMatches<'a>) -> Option<Plan<'a>>
    requires { HasWord (rows_of (found_of words.now)) (codes "db") db.now }
    ensures planned { IfSome result (IsPlanned (codes "subtract") (rows_of (found_of words.now))) }
    ensures none { IfNone result (HasNoPlan (Some (codes "subtract", rows_of (found_of words.now)))) }
{
    let selection = selection(words)?;
    let less = less(words)?;
    let event = word(words, "event")?;
    let key = key(words)?;
    Some(Plan::Subtract {
        db,
        selection,
        less,
        event,
        key,
    })
}

/// A comparison with the totals that files state.
fn verify<'a>(db: &'a str, words: &ArgMatches<'a>) -> Option<Plan<'a>>
    requires { HasWord (rows_of (found_of words.now)) (codes "db") db.now }
    ensures planned { IfSome result (IsPlanned (codes "verify") (rows_of (found_of words.now))) }
    ensures none { IfNone result (HasNoPlan (Some (codes "verify", rows_of (found_of words.now)))) }
{
    let selection = selection(words)?;
    Some(Plan::Verify { db, selection })
}

/// A source that is annotated.
fn annotate<'a>(db: &'a str, words: &ArgMatches<'a>) -> Option<Plan<'a>>
    requires { HasWord (rows_of (found_of words.now)) (codes "db") db.now }
    ensures planned { IfSome result (IsPlanned (codes "annotate") (rows_of (found_of words.now))) }
    ensures none { IfNone result (HasNoPlan (Some (codes "annotate", rows_of (found_of words.now)))) }
{
    let selection = selection(words)?;
    let event = word(words, "event")?;
    let file = word(words, "file")?;
    let source = word(words, "SOURCE")?;
    Some(Plan::Annotate {
        db,
        selection,
        event,
        file,
        source,
    })
}

/// An export of self costs.
fn csv<'a>(db: &'a str, words: &ArgMatches<'a>) -> Option<Plan<'a>>
    requires { HasWord (rows_of (found_of words.now)) (codes "db") db.now }
    ensures planned { IfSome result (IsPlanned (codes "csv") (rows_of (found_of words.now))) }
    ensures none { IfNone result (HasNoPlan (Some (codes "csv", rows_of (found_of words.now)))) }
{
    let selection = selection(words)?;
    Some(Plan::Csv { db, selection })
}

/// An export of stacks.
fn folded<'a>(db: &'a str, words: &ArgMatches<'a>) -> Option<Plan<'a>>
    requires { HasWord (rows_of (found_of words.now)) (codes "db") db.now }
    ensures planned { IfSome result (IsPlanned (codes "folded") (rows_of (found_of words.now))) }
    ensures none { IfNone result (HasNoPlan (Some (codes "folded", rows_of (found_of words.now)))) }
{
    let selection = selection(words)?;
    Some(Plan::Folded { db, selection })
}

/// Requests that are answered.
fn serve<'a>(db: &'a str, words: &ArgMatches<'a>) -> Option<Plan<'a>>
    requires { HasWord (rows_of (found_of words.now)) (codes "db") db.now }
    ensures planned { IfSome result (IsPlanned (codes "serve") (rows_of (found_of words.now))) }
    ensures none { IfNone result (HasNoPlan (Some (codes "serve", rows_of (found_of words.now)))) }
{
    let port = port(words)?;
    let requests = requests(words)?;
    let most_bytes = most_bytes(words)?;
    let log = is_given(words, "log");
    Some(Plan::Serve {
        db,
        port,
        requests,
        most_bytes,
        log,
    })
}

/// The plan for an export.
fn export<'a>(name: &str, db: &'a str, words: &ArgMatches<'a>) -> Option<Plan<'a>>
    requires { HasWord (rows_of (found_of words.now)) (codes "db") db.now }
    ensures planned { IfSome result (IsPlanned name.now (rows_of (found_of words.now))) }
    ensures none { IfNone result (IsOneOf exports name.now → HasNoPlan (Some (name.now, rows_of (found_of words.now)))) }
{
    match name {
        "annotate" => annotate(db, words),
        "csv" => csv(db, words),
        "folded" => folded(db, words),
        _ => None,
    }
}

/// The plan for a report, or for an export.
fn report<'a>(name: &str, db: &'a str, words: &ArgMatches<'a>) -> Option<Plan<'a>>
    requires { HasWord (rows_of (found_of words.now)) (codes "db") db.now }
    ensures planned { IfSome result (IsPlanned name.now (rows_of (found_of words.now))) }
    ensures none { IfNone result (IsOneOf reports name.now → HasNoPlan (Some (name.now, rows_of (found_of words.now)))) }
{
    match name {
        "by" => by(db, words),
        "inclusive" => inclusive(db, words),
        "callers" | "callees" => calls(name, db, words),
        "subtract" => subtract(db, words),
        "verify" => verify(db, words),
        _ => export(name, db, words),
    }
}

/// The plan for a subcommand that wants the database, and whose plan takes no memory.
fn small_plan<'a>(name: &str, db: &'a str, words: &ArgMatches<'a>) -> Option<Plan<'a>>
    requires { HasWord (rows_of (found_of words.now)) (codes "db") db.now }
    ensures planned { IfSome result (IsPlanned name.now (rows_of (found_of words.now))) }
    ensures none { IfNone result (IsOneOf small_plans name.now → HasNoPlan (Some (name.now, rows_of (found_of words.now)))) }
{
    match name {
        "runs" => Some(Plan::Runs { db }),
        "group" => group(db, words),
        "groups" => Some(Plan::Groups { db }),
        "join" | "leave" | "baseline" => member(name, db, words),
        "serve" => serve(db, words),
        _ => report(name, db, words),
    }
}

/// The plan for a subcommand that wants the database.
fn over_database<'a>(
    alloc: Global,
    name: &str,
    words: &ArgMatches<'a>,
) -> Result<Option<Plan<'a>>, AllocError>
    ensures planned { IfOk result (λ found. IfSome found (IsPlanned name.now (rows_of (found_of words.now)))) }
    ensures none { IfOk result (λ found. IfNone found ((name.now ≢ codes "total") → HasNoPlan (Some (name.now, rows_of (found_of words.now))))) }
{
    let Some(db) = word(words, "db") else {
        return Ok(None);
    };
    match name {
        "import" => import(alloc, db, words),
        "remove" => remove(alloc, db, words),
        _ => Ok(small_plan(name, db, words)),
    }
}

/// The plan for a subcommand.
fn plan_of<'a>(
    alloc: Global,
    name: &str,
    words: &ArgMatches<'a>,
) -> Result<Option<Plan<'a>>, AllocError>
    ensures planned { IfOk result (λ found. IfSome found (IsPlanned name.now (rows_of (found_of words.now)))) }
    ensures none { IfOk result (λ found. IfNone found (HasNoPlan (Some (name.now, rows_of (found_of words.now))))) }
{
    if name == "total" {
        return match word(words, "FILE") {
            Some(path) => Ok(Some(Plan::Total { path })),
            None => Ok(None),
        };
    }
    over_database(alloc, name, words)
}

/// The plan for what was found of the words, where that is of a subcommand.
fn plan_found<'a>(alloc: Global, matches: &ArgMatches<'a>) -> Result<Option<Plan<'a>>, PlanEnd>
    ensures planned { IfOk result (λ found. IfSome found (IsPlannedFor (subcommand_rows_of matches.now))) }
    ensures none { IfOk result (λ found. IfNone found (HasNoPlan (subcommand_rows_of matches.now))) }
    ensures apart { IfOk result (λ _. AreApart (subcommand_rows_of matches.now)) }
    ensures end { IfErr result (IsEndFound (subcommand_rows_of matches.now)) }
{
    match matches.subcommand() {
        Some((_, words)) if run_and_group(words) => Err(PlanEnd::RunAndGroup),
        Some((_, words)) if less_run_and_less_group(words) => Err(PlanEnd::LessRunAndLessGroup),
        Some((name, words)) => Ok(plan_of(alloc, name, words)?),
        None => Ok(None),
    }
}

/// The plan for the words of a command line, by the grammar that the program reads.
fn plan_by<'a>(
    alloc: Global,
    grammar: &mut Command<'a>,
    words: &'a [String],
) -> Result<Plan<'a>, PlanEnd>
    requires grammar { IsCommandLine (app_of grammar.old) }
    requires local { (fields_of grammar.old).has_globals ≡ false }
    ensures plan { IfOk result (IsPlanFor (map string_bytes words.now)) }
    ensures end { IfErr result (IsEndFor (map string_bytes words.now)) }
{
    let matches = grammar.try_get_matches_from_mut(words)?;
    let found = plan_found(alloc, &matches);
    drop(matches);
    if let Some(plan) = found? {
        return Ok(plan);
    }
    let error = grammar.error(ErrorKind::MissingSubcommand, "a subcommand is required")?;
    Err(PlanEnd::Clap(error))
}

/// The plan for the words of a command line, of which the first is the program's name.
pub fn plan<'a>(alloc: Global, words: &'a [String]) -> Result<Plan<'a>, PlanEnd>
    ensures plan { IfOk result (IsPlanFor (map string_bytes words.now)) }
    ensures end { IfErr result (IsEndFor (map string_bytes words.now)) }
{
    let mut grammar = grammar(alloc)?;
    plan_by(alloc, &mut grammar, words)
}
