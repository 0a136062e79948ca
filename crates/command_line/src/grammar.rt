// The grammar of the command line: what the table of subcommands is made of, and what clap is told of it.
ghost use Rattle.std.specs.Prelude.{◌≡◌, false, flat_map, map, IfOk, IsOkAnd};
ghost use Rattle.clap.specs.declared.builder.value_parser.ValueParser.{ValueParser};
ghost use Rattle.clap.specs.Words.{app_of, rule_of, with_subcommand};
ghost use Rattle.clap.specs.declared.builder.command.Command.TheViews.{out-Command as fields_of};
ghost use Rattle.command_line.specs.Grammar as line;
ghost use Rattle.command_line.specs.Table as table;

use crate::subcommands::{CALLS, COMPARISONS, COSTS, EXPORTS, GROUPS, IMPORTS, UPKEEP};
use clap::builder::ValueParser;
use clap::{Arg, ArgAction, Command};
use std::alloc::{AllocError, Global};

/// The version of the program.
const VERSION: &str = "0.1.0";

/// What help says of terminals.
const ON_TERMINALS: &str =
    "Where the standard error is a terminal, it says why a store or a file is refused.";

/// The greatest number of a run.
pub const LAST_RUN: u32 = 2_147_483_647;

/// The most requests that are answered before the program ends.
pub const MOST_REQUESTS: u32 = 1_000_000;

/// The most bytes that an answer may have, where that is said.
pub const MOST_BYTES: u32 = 4_294_967_295;

/// What a threshold is a part of, in percent.
pub const MAX_PERCENT: u8 = 100;

/// The words of keys.
static KEYS: [&str; 5] = ["object", "file", "function", "line", "thread"];

/// How an argument stands on a command line.
#[derive(Clone, Copy)]
pub enum Form {
    /// A flag, by its long name.
    Flag,
    /// An option, by its long name; help calls its value by this name.
    Option(&'static str),
    /// An option that has to be given.
    Required(&'static str),
    /// A word that has to be given.
    Operand,
    /// Such a word, once or more.
    Operands,
}

/// Which words an argument takes.
#[derive(Clone, Copy)]
pub enum Takes {
    /// Any.
    Texts,
    /// Those of the numbers from the least to the greatest.
    Numbers(u32, u32),
    /// Those of keys.
    Keys,
}

/// An argument of a subcommand.
#[derive(Clone, Copy)]
pub struct Argument {
    pub id: &'static str,
    pub form: Form,
    pub takes: Takes,
    pub default: Option<&'static str>,
    pub help: &'static str,
}

/// A subcommand. Its help says what it is about, and ends with an example.
#[derive(Clone, Copy)]
pub struct Subcommand {
    pub name: &'static str,
    pub about: &'static str,
    pub example: &'static str,
    pub arguments: &'static [Argument],
}

/// What clap is told of how an argument stands on a command line.
fn formed<'a>(alloc: Global, argument: Argument) -> Arg<'a>
    ensures rule { rule_of result ≡ table.formed argument.form argument.id.now }
    ensures local { result.global ≡ false }
{
    let arg = Arg::new(alloc, argument.id);
    match argument.form {
        Form::Flag => arg.long(argument.id).action(ArgAction::SetTrue),
        Form::Option(value) => arg.long(argument.id).value_name(value),
        Form::Required(value) => arg.long(argument.id).value_name(value).required(true),
        Form::Operand => arg.required(true),
        Form::Operands => arg.required(true).num_args(1..),
    }
}

/// What clap is told of which words an argument takes.
fn taking<'a>(arg: Arg<'a>, takes: Takes, keys: ValueParser<'a>) -> Arg<'a>
    ensures rule { rule_of result ≡ table.taking keys.entry takes (rule_of arg.entry) }
    ensures local { result.global ≡ arg.entry.global }
{
    match takes {
        Takes::Texts => arg,
        Takes::Numbers(least, most) => {
            arg.value_parser(ValueParser::signed(i64::from(least), i64::from(most)))
        }
        Takes::Keys => arg.value_parser(keys),
    }
}

/// What clap is told of an argument.
fn arg_for<'a>(alloc: Global, argument: Argument, keys: ValueParser<'a>) -> Arg<'a>
    ensures rule { rule_of result ≡ table.rule_by keys.entry argument }
    ensures local { result.global ≡ false }
{
    let arg = taking(formed(alloc, argument), argument.takes, keys).help(argument.help);
    match argument.default {
        Some(value) => arg.default_value(value),
        None => arg,
    }
}

/// What clap is told of a subcommand.
fn command_for<'a>(
    alloc: Global,
    row: Subcommand,
    keys: ValueParser<'a>,
) -> Result<Command<'a>, AllocError>
    ensures app { IfOk result (λ command. app_of command ≡ table.app_by keys.entry row) }
    ensures local { IfOk result (λ command. (fields_of command).has_globals ≡ false) }
{
    let mut command = Command::new(alloc, row.name)
        .about(row.about)
        .after_help(row.example);
    for given in row.arguments {
        command = command.arg(arg_for(alloc, *given, keys))?;
    }
    Ok(command)
}

/// A command with one more subcommand, where there was memory to make that. What was made of it is
/// handed on, so that no caller holds a command while another is made: each `?` where one has to be
/// let go costs a proof of its own.
fn with<'a>(
    command: Command<'a>,
    made: Result<Command<'a>, AllocError>,
) -> Result<Command<'a>, AllocError>
    requires local { (fields_of command).has_globals ≡ false }
    requires more_local { IfOk made (λ more. (fields_of more).has_globals ≡ false) }
    ensures app { IfOk result (λ all. IsOkAnd made.entry (λ more. app_of all ≡ with_subcommand (app_of command.entry) (app_of more).top)) }
    ensures local { IfOk result (λ all. (fields_of all).has_globals ≡ false) }
{
    let more = made?;
    command.subcommand(more)
}

/// The program's own command, with no subcommand yet.
fn program<'a>(alloc: Global) -> Command<'a>
    ensures app { app_of result ≡ line.program }
    ensures local { (fields_of result).has_globals ≡ false }
{
    Command::new(alloc, "profhouse")
        .version(VERSION)
        .about("A warehouse of run profiles whose every figure is exact")
        .after_help(ON_TERMINALS)
        .subcommand_required(true)
}

/// The program's own command with the subcommands of some tables.
fn grammar_of<'a>(
    alloc: Global,
    tables: &[&'static [Subcommand]],
    keys: ValueParser<'a>,
) -> Result<Command<'a>, AllocError>
    ensures app { IfOk result (λ command. app_of command ≡ table.line_by keys.entry (flat_map (λ rows. rows.now) tables.now)) }
    ensures local { IfOk result (λ command. (fields_of command).has_globals ≡ false) }
{
    let mut command = program(alloc);
    for rows in tables {
        for row in *rows {
            command = with(command, command_for(alloc, *row, keys))?;
        }
    }
    Ok(command)
}

/// What takes the words of keys.
fn keys<'a>() -> ValueParser<'a>
    ensures { line.TakesKeys result }
{
    ValueParser::Names(KEYS.as_slice())
}

/// The first table, as a list.
fn imports() -> &'static [Subcommand]
    ensures { (keys : ValueParser) → map (table.row_by keys) result.now ≡ line.import_rows }
{
    IMPORTS.as_slice()
}

/// The table of costs, as a list.
fn costs() -> &'static [Subcommand]
    ensures { (keys : ValueParser) → map (table.row_by keys) result.now ≡ line.cost_rows keys }
{
    COSTS.as_slice()
}

/// The table of calls, as a list.
fn calls() -> &'static [Subcommand]
    ensures { (keys : ValueParser) → map (table.row_by keys) result.now ≡ line.call_rows }
{
    CALLS.as_slice()
}

/// The table of comparisons, as a list.
fn comparisons() -> &'static [Subcommand]
    ensures { (keys : ValueParser) → map (table.row_by keys) result.now ≡ line.comparison_rows keys }
{
    COMPARISONS.as_slice()
}

/// The table of exports, as a list.
fn exports() -> &'static [Subcommand]
    ensures { (keys : ValueParser) → map (table.row_by keys) result.now ≡ line.export_rows }
{
    EXPORTS.as_slice()
}

/// The table of groups, as a list.
fn groups() -> &'static [Subcommand]
    ensures { (keys : ValueParser) → map (table.row_by keys) result.now ≡ line.group_rows }
{
    GROUPS.as_slice()
}

/// The last table, as a list.
fn upkeep() -> &'static [Subcommand]
    ensures { (keys : ValueParser) → map (table.row_by keys) result.now ≡ line.upkeep_rows }
{
    UPKEEP.as_slice()
}

/// The tables, in the order in which help lists their subcommands.
fn subcommands() -> [&'static [Subcommand]; 7]
    ensures { (keys : ValueParser) → map (table.row_by keys) (flat_map (λ rows. rows.now) result) ≡ line.rows keys }
{
    [
        imports(),
        costs(),
        calls(),
        comparisons(),
        exports(),
        groups(),
        upkeep(),
    ]
}

/// The command line that the program reads.
pub fn grammar<'a>(alloc: Global) -> Result<Command<'a>, AllocError>
    ensures app { IfOk result (λ command. line.IsCommandLine (app_of command)) }
    ensures local { IfOk result (λ command. (fields_of command).has_globals ≡ false) }
{
    grammar_of(alloc, &subcommands(), keys())
}
