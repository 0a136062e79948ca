// What was found of the arguments of a subcommand.
ghost use Rattle.std.specs.Prelude.{◌≡◌, ◌≢◌, ◌↔◌, ◌≤◌, true, [], All, map, codes, Some, None, IfNone, IfOk, IfSome, IsSome};
ghost use Rattle.clap.specs.Words.{all_of, first_of, found_of, one_of, rows_of};
ghost use Rattle.cost_rows.specs.Keys.{key_name};
ghost use Rattle.command_line.specs.Plans.{IsByteCount, IsLimit, IsPort, IsRequestCount, IsRunNumber, IsSoundSelection, SaysRun, SaysUpTo, number_of};
ghost use Rattle.command_line.specs.Plans.{HasWord, HasWords, HasNumber, HasRun, HasRuns, HaveRuns, IsFlag, NamesBoth, NoneIs, SaysNumber};
ghost use Rattle.command_line.specs.Plans.{HasSelection, HasSelectionBy, HasLess};

use crate::grammar::{LAST_RUN, MAX_PERCENT, MOST_BYTES, MOST_REQUESTS};
use cg_text::ListVec;
use clap::ArgMatches;
use cost_rows::Key;
use requests::Selection;
use std::alloc::{AllocError, Global};

/// The word of an argument.
pub fn word<'a>(words: &ArgMatches<'a>, id: &str) -> Option<&'a str>
    ensures word { IfSome result (λ word. HasWord (rows_of (found_of words.now)) id.now word.now) }
    ensures none { result ≡ None → first_of id.now (rows_of (found_of words.now)) ≡ None }
{
    words.get_str(id)
}

/// Whether a flag was given.
pub fn is_given(words: &ArgMatches<'_>, id: &str) -> bool
    ensures { IsFlag (one_of id.now (rows_of (found_of words.now))) result }
{
    words.get_flag(id)
}

/// The words of an argument that takes several, of which there is one at least.
fn all_words<'m, 'a>(words: &'m ArgMatches<'a>, id: &str) -> Option<&'m [&'a str]>
    ensures some { IfSome result (λ texts. texts.now ≢ []) }
    ensures words { IfSome result (λ texts. all_of id.now (rows_of (found_of words.now)) ≡ Some (map (λ text. text.now) texts.now)) }
    ensures none { IfNone result (NoneIs (HasWords (rows_of (found_of words.now)) id.now)) }
{
    let texts = words.get_strs(id)?;
    if texts.is_empty() {
        return None;
    }
    Some(texts)
}

/// The files that were named.
pub fn files<'a>(
    alloc: Global,
    words: &ArgMatches<'a>,
) -> Result<Option<ListVec<&'a str>>, AllocError>
    ensures some { IfOk result (λ found. IfSome found (λ files. files ≢ [])) }
    ensures words { IfOk result (λ found. IfSome found (λ files. all_of (codes "FILE") (rows_of (found_of words.now)) ≡ Some (map (λ file. file.now) files))) }
    ensures none { IfOk result (λ found. IfNone found (NoneIs (HasWords (rows_of (found_of words.now)) (codes "FILE")))) }
{
    match all_words(words, "FILE") {
        Some(files) => Ok(Some(ListVec::from_vec(files.to_vec(alloc)?))),
        None => Ok(None),
    }
}

/// The number from 1 to the greatest one, where a text is such.
fn number_up_to(text: &str, most: u32) -> Option<u32>
    ensures one { IsSome result ↔ SaysUpTo most text.now }
    ensures value { IfSome result (λ number. number ≡ number_of text.now) }
{
    match text.parse::<u32>() {
        Ok(number) if 1 <= number && number <= most => Some(number),
        _ => None,
    }
}

/// The number of a run, where a text is one.
fn run_of(text: &str) -> Option<u32>
    ensures one { IsSome result ↔ SaysRun text.now }
    ensures value { IfSome result (λ number. number ≡ number_of text.now) }
{
    number_up_to(text, LAST_RUN)
}

/// The number of the run that was named.
pub fn run(words: &ArgMatches<'_>) -> Option<u32>
    ensures range { IfSome result IsRunNumber }
    ensures number { IfSome result (HasRun (rows_of (found_of words.now))) }
    ensures none { IfNone result (NoneIs (λ number. IsRunNumber number × HasRun (rows_of (found_of words.now)) number)) }
{
    run_of(word(words, "N")?)
}

/// The numbers of runs, where all texts are such.
fn runs_of(alloc: Global, texts: &[&str]) -> Result<Option<ListVec<u32>>, AllocError>
    ensures range { IfOk result (λ found. IfSome found (All IsRunNumber)) }
    ensures value { IfOk result (λ found. IfSome found (λ numbers. numbers ≡ map (λ text. number_of text.now) texts.now)) }
    ensures all { IfOk result (λ found. IsSome found ↔ All (λ text. SaysRun text.now) texts.now) }
{
    let mut numbers = Vec::new(alloc);
    for text in texts {
        let Some(number) = run_of(text) else {
            return Ok(None);
        };
        numbers.push(number)?;
    }
    Ok(Some(ListVec::from_vec(numbers)))
}

/// The numbers of the runs that were named.
pub fn runs(alloc: Global, words: &ArgMatches<'_>) -> Result<Option<ListVec<u32>>, AllocError>
    ensures some { IfOk result (λ found. IfSome found (λ numbers. numbers ≢ [])) }
    ensures range { IfOk result (λ found. IfSome found (All IsRunNumber)) }
    ensures numbers { IfOk result (λ found. IfSome found (HaveRuns (rows_of (found_of words.now)))) }
    ensures none { IfOk result (λ found. IfNone found (NoneIs (HasRuns (rows_of (found_of words.now))))) }
{
    match all_words(words, "N") {
        Some(texts) => runs_of(alloc, texts),
        None => Ok(None),
    }
}

/// Whether a run and a group were both named, by these options.
fn names_both(words: &ArgMatches<'_>, run: &str, group: &str) -> bool
    ensures { result ≡ true ↔ NamesBoth run.now group.now (rows_of (found_of words.now)) }
{
    word(words, run).is_some() && word(words, group).is_some()
}

/// Whether a run and a group were both selected.
pub fn run_and_group(words: &ArgMatches<'_>) -> bool
    ensures { result ≡ true ↔ NamesBoth (codes "run") (codes "group") (rows_of (found_of words.now)) }
{
    names_both(words, "run", "group")
}

/// Whether a run and a group were both selected whose costs are taken off.
pub fn less_run_and_less_group(words: &ArgMatches<'_>) -> bool
    ensures { result ≡ true ↔ NamesBoth (codes "less-run") (codes "less-group") (rows_of (found_of words.now)) }
{
    names_both(words, "less-run", "less-group")
}

/// The runs that two options select, where they do not so in two ways.
fn selection_by<'a>(words: &ArgMatches<'a>, run: &str, group: &str) -> Option<Selection<&'a [u8]>>
    ensures sound { IfSome result IsSoundSelection }
    ensures selection { IfSome result (HasSelectionBy run.now group.now (rows_of (found_of words.now))) }
    ensures none { IfNone result (NoneIs (λ runs. IsSoundSelection runs × HasSelectionBy run.now group.now (rows_of (found_of words.now)) runs)) }
{
    match (word(words, run), word(words, group)) {
        (None, None) => Some(Selection::All),
        (Some(number), None) => Some(Selection::Run(run_of(number)?)),
        (None, Some(name)) => Some(Selection::Group(name.as_bytes())),
        (Some(_), Some(_)) => None,
    }
}

/// The runs that were selected, where they are not so in two ways.
pub fn selection<'a>(words: &ArgMatches<'a>) -> Option<Selection<&'a [u8]>>
    ensures sound { IfSome result IsSoundSelection }
    ensures selection { IfSome result (HasSelection (rows_of (found_of words.now))) }
    ensures none { IfNone result (NoneIs (λ runs. IsSoundSelection runs × HasSelection (rows_of (found_of words.now)) runs)) }
{
    selection_by(words, "run", "group")
}

/// The runs whose costs are taken off, if such were selected: no answer where they are in two ways.
pub fn less<'a>(words: &ArgMatches<'a>) -> Option<Option<Selection<&'a [u8]>>>
    ensures sound { IfSome result (λ less. IfSome less IsSoundSelection) }
    ensures selection { IfSome result (HasLess (rows_of (found_of words.now))) }
    ensures none { IfNone result (NoneIs (λ less. IfSome less IsSoundSelection × HasLess (rows_of (found_of words.now)) less)) }
{
    match selection_by(words, "less-run", "less-group")? {
        Selection::All => Some(None),
        Selection::Run(number) => Some(Some(Selection::Run(number))),
        Selection::Group(name) => Some(Some(Selection::Group(name))),
    }
}

/// The limit on rows, if there is one: no answer where its word is no number.
pub fn limit(words: &ArgMatches<'_>) -> Option<Option<u32>>
    ensures range { IfSome result (λ limit. IfSome limit IsLimit) }
    ensures number { IfSome result (HasNumber (rows_of (found_of words.now)) (codes "limit")) }
    ensures none { IfNone result (NoneIs (λ limit. IfSome limit IsLimit × HasNumber (rows_of (found_of words.now)) (codes "limit") limit)) }
{
    words.try_get_one::<u32>("limit").ok()
}

/// The threshold, in percent.
pub fn threshold(words: &ArgMatches<'_>) -> Option<u8>
    ensures range { IfSome result (λ percent. percent ≤ 100) }
    ensures number { IfSome result (λ percent. HasNumber (rows_of (found_of words.now)) (codes "threshold") (Some percent)) }
    ensures none { IfNone result (NoneIs (λ percent. (percent ≤ 100) × HasNumber (rows_of (found_of words.now)) (codes "threshold") (Some percent))) }
{
    match words.get_one::<u8>("threshold") {
        Some(percent) if percent <= MAX_PERCENT => Some(percent),
        _ => None,
    }
}

/// The port that was named.
pub fn port(words: &ArgMatches<'_>) -> Option<u16>
    ensures range { IfSome result IsPort }
    ensures number { IfSome result (λ port. HasNumber (rows_of (found_of words.now)) (codes "port") (Some port)) }
    ensures none { IfNone result (NoneIs (λ port. IsPort port × HasNumber (rows_of (found_of words.now)) (codes "port") (Some port))) }
{
    words.get_one::<u16>("port")
}

/// How many requests are answered.
pub fn requests(words: &ArgMatches<'_>) -> Option<u32>
    ensures range { IfSome result IsRequestCount }
    ensures number { IfSome result (SaysNumber (rows_of (found_of words.now)) (codes "requests")) }
    ensures none { IfNone result (NoneIs (λ count. IsRequestCount count × SaysNumber (rows_of (found_of words.now)) (codes "requests") count)) }
{
    number_up_to(word(words, "requests")?, MOST_REQUESTS)
}

/// How many bytes an answer may have.
pub fn most_bytes(words: &ArgMatches<'_>) -> Option<u32>
    ensures range { IfSome result IsByteCount }
    ensures number { IfSome result (SaysNumber (rows_of (found_of words.now)) (codes "most-bytes")) }
    ensures none { IfNone result (NoneIs (λ count. IsByteCount count × SaysNumber (rows_of (found_of words.now)) (codes "most-bytes") count)) }
{
    number_up_to(word(words, "most-bytes")?, MOST_BYTES)
}

/// The key that was named.
pub fn key(words: &ArgMatches<'_>) -> Option<Key>
    ensures some { IfSome result (λ key. HasWord (rows_of (found_of words.now)) (codes "KEY") (key_name key)) }
    ensures none { IfNone result (NoneIs (λ key. HasWord (rows_of (found_of words.now)) (codes "KEY") (key_name key))) }
{
    match word(words, "KEY")? {
        "object" => Some(Key::Object),
        "file" => Some(Key::File),
        "function" => Some(Key::Function),
        "line" => Some(Key::Line),
        "thread" => Some(Key::Thread),
        _ => None,
    }
}
