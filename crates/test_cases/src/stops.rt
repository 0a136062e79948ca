// A machine that stops at a change of the files of a store that is made or migrated by SQL, or changed by its pages: of the
// log, of the database file, or of both. Opened again, they tell what they told before the step or with it, and with it where
// it was answered as done.
use crate::changes::{CHANGES, Change};
use crate::images::{Image, Left, files_of};
use crate::meters::{Meter, Stops};
use crate::stores::{DatabaseJob, change_pages, is_done_in, pages_in, told_by_pages, told_by_sql};
use run_stores::Kind;
use sqlite_disk::{Disk, Files};
use std::alloc::Global;
use std::test::Fail;

/// How many pages each of `CHANGES` writes at least: of each table with other rows one, and of each of its indexes.
const PAGES: [u64; 12] = [12, 8, 2, 2, 2, 2, 2, 1, 18, 12, 4, 13];

/// By SQL every so many stops are looked at too.
const BY_SQL: u64 = 5;

/// What is done while a machine stops.
#[derive(Clone, Copy)]
enum Step {
    /// A store is made, by SQL.
    Make,
    /// One of version 1 is opened, by SQL.
    Migrate,
    /// One is changed, by its pages.
    Change(Change),
}

impl Step {
    /// At which stops files are looked at by their pages alone: SQL takes up what is no store of this version.
    fn is_by_pages(self) -> bool {
        matches!(self, Step::Change(_))
    }
}

/// Opens the store in files, and changes it while so many changes are made of them: whether that is answered as done, and
/// the files.
fn changed_in<D: Disk + Drop>(
    alloc: Global,
    files: Files<D>,
    change: Change,
    meter: &Meter,
    changes: u64,
) -> Result<(bool, Files<D>), Fail> {
    let mut store = pages_in(alloc, files)?;
    meter.allow(changes);
    let is_done = change_pages(&mut store, alloc, change).is_ok();
    Ok((is_done, store.into_file().close()))
}

/// Does a step while so many changes are made of files: whether that is answered as done, and the files.
fn stepped_in<D: Disk + Drop>(
    alloc: Global,
    files: Files<D>,
    step: Step,
    meter: &Meter,
    changes: u64,
) -> Result<(bool, Files<D>), Fail> {
    if let Step::Change(change) = step {
        return changed_in(alloc, files, change, meter, changes);
    }
    let job = match step {
        Step::Make => DatabaseJob::Make,
        _ => DatabaseJob::Open,
    };
    meter.allow(changes);
    let (is_done, files) = is_done_in(alloc, files, job);
    Ok((is_done.unwrap_or(false), files))
}

/// What a step comes to over files that stop.
#[derive(Drop)]
struct Ended {
    is_done: bool,
    has_stopped: bool,
    left: Left,
}

/// Does a step over files that stop after so many changes.
fn ended_by(
    alloc: Global,
    image: &Image,
    step: Step,
    stops: Stops,
    changes: u64,
) -> Result<Ended, Fail> {
    let meter = Meter::new(alloc, stops)?;
    let files = files_of(alloc, &image.log, &image.database, 0, &meter)?;
    let (is_done, files) = stepped_in(alloc, files, step, &meter, changes)?;
    Ok(Ended {
        is_done,
        has_stopped: meter.is_spent(),
        left: Left::of(files),
    })
}

/// By what files are read.
#[derive(Clone, Copy)]
enum Reader {
    Pages,
    Sql,
}

/// What files tell.
fn told_in(alloc: Global, log: &[u8], database: &[u8], by: Reader) -> Result<Vec<u8>, Fail> {
    let meter = Meter::new(alloc, Stops::Both)?;
    let files = files_of(alloc, log, database, 0, &meter)?;
    let told = match by {
        Reader::Pages => told_by_pages(alloc, files)?,
        Reader::Sql => told_by_sql(alloc, files)?,
    };
    Ok(told)
}

/// What is told before a step, and after it.
#[derive(Drop)]
struct Told {
    before: Vec<u8>,
    after: Vec<u8>,
}

impl Told {
    /// Whether that may be told, where the step is answered as done or not.
    fn allows(&self, is_done: bool, told: &[u8]) -> bool {
        told == self.after.as_slice() || (!is_done && told == self.before.as_slice())
    }
}

/// Whether files may be left by a stop over an image.
fn is_right(
    alloc: Global,
    image: &Image,
    files: (&[u8], &[u8]),
    is_done: bool,
    told: &Told,
    by: Reader,
) -> Result<bool, Fail> {
    if files.0 == image.log.as_slice() && files.1 == image.database.as_slice() {
        return Ok(told.allows(is_done, &told.before));
    }
    Ok(told.allows(is_done, &told_in(alloc, files.0, files.1, by)?))
}

/// Looks at what a stop over an image left.
fn look_at(
    alloc: Global,
    image: &Image,
    ended: &Ended,
    told: &Told,
    by: Reader,
) -> Result<(), Fail> {
    for (log, database, is_another) in ended.left.images() {
        if is_another && !is_right(alloc, image, (log, database), ended.is_done, told, by)? {
            return Err("neither as before nor as after it")?;
        }
    }
    Ok(())
}

/// Stops at each change of the files in turn: how many there were before it ended without a stop.
fn stops_of(
    alloc: Global,
    image: &Image,
    step: Step,
    stops: Stops,
    told: &Told,
) -> Result<u64, Fail> {
    for changes in 0..10000u64 {
        let ended = ended_by(alloc, image, step, stops, changes)?;
        if step.is_by_pages() {
            look_at(alloc, image, &ended, told, Reader::Pages)?;
        }
        if !step.is_by_pages() || changes % BY_SQL == 0 {
            look_at(alloc, image, &ended, told, Reader::Sql)?;
        }
        if !ended.has_stopped {
            return Ok(changes);
        }
    }
    Err("no end")?
}

/// What a step leaves that is done without a stop.
fn done(alloc: Global, image: &Image, step: Step) -> Result<Image, Fail> {
    let Ended {
        is_done,
        has_stopped: _,
        left,
    } = ended_by(alloc, image, step, Stops::Both, u64::MAX)?;
    if !is_done {
        return Err("it is not done")?;
    }
    Ok(left.into_written())
}

/// What is told before a change and after it. Only the copying of the log does not show.
fn told_around(alloc: Global, image: &Image, change: Change, after: &Image) -> Result<Told, Fail> {
    let told = Told {
        before: told_in(alloc, &image.log, &image.database, Reader::Pages)?,
        after: told_in(alloc, &after.log, &after.database, Reader::Pages)?,
    };
    let shows = told.before.as_slice() != told.after.as_slice();
    if shows == matches!(change, Change::Checkpoint) {
        return Err("it does not show, or a checkpoint does")?;
    }
    Ok(told)
}

/// At least how many stops there are while a change writes so many pages: before each page, before they are synced, and
/// behind it all. Only the copying of the log writes the database file.
fn least_stops(change: Change, stops: Stops, pages: u64) -> u64 {
    let writes_log = !matches!(change, Change::Checkpoint);
    match (stops, writes_log) {
        (Stops::Log, false) | (Stops::Database, true) => 1,
        _ => pages.saturating_add(2),
    }
}

/// Stops at each change of the files while a change of a store over an image is done, which writes so many pages.
fn stops_within(
    alloc: Global,
    image: &Image,
    change: Change,
    stops: Stops,
    pages: u64,
) -> Result<(), Fail> {
    let step = Step::Change(change);
    let after = done(alloc, image, step)?;
    let told = told_around(alloc, image, change, &after)?;
    drop(after);
    let count = stops_of(alloc, image, step, stops, &told);
    drop(told);
    if count? < least_stops(change, stops, pages) {
        return Err("it writes too few pages")?;
    }
    Ok(())
}

/// Stops at each change of the files while a store is made: what it leaves.
fn made(alloc: Global, stops: Stops) -> Result<Image, Fail> {
    let empty = Image::empty(alloc);
    let made = done(alloc, &empty, Step::Make)?;
    let told = Told {
        before: Vec::new(alloc),
        after: told_in(alloc, &made.log, &made.database, Reader::Pages)?,
    };
    if stops_of(alloc, &empty, Step::Make, stops, &told)? < 2 {
        return Err("it changes no file")?;
    }
    Ok(made)
}

/// The files of a store of version 1 with what a store holds.
fn as_first(alloc: Global, image: &Image) -> Result<Image, Fail> {
    let meter = Meter::new(alloc, Stops::Both)?;
    let files = files_of(alloc, &image.log, &image.database, 0, &meter)?;
    let (is_made, files) = is_done_in(alloc, files, DatabaseJob::MakeFirst);
    if is_made != Some(true) {
        return Err("no store of version 1")?;
    }
    Ok(Left::of(files).into_written())
}

/// Stops at each change of the files while a store of version 1 is opened, which tells what it told before.
fn migrated(alloc: Global, image: &Image, stops: Stops) -> Result<(), Fail> {
    let told = Told {
        before: told_in(alloc, &image.log, &image.database, Reader::Pages)?,
        after: told_in(alloc, &image.log, &image.database, Reader::Pages)?,
    };
    let first = as_first(alloc, image)?;
    done(alloc, &first, Step::Migrate)?;
    if stops_of(alloc, &first, Step::Migrate, stops, &told)? < 2 {
        return Err("it changes no file")?;
    }
    Ok(())
}

/// Stops at each change of the files while a store is made, opened as one of version 1 once a file is in it, and changed.
fn all_stops(alloc: Global, stops: Stops) -> Result<(), Fail> {
    let mut image = made(alloc, stops)?;
    for (change, pages) in CHANGES.into_iter().zip(PAGES) {
        stops_within(alloc, &image, change, stops, pages)?;
        image = done(alloc, &image, Step::Change(change))?;
        if matches!(change, Change::Import(Kind::Callgrind, _)) {
            migrated(alloc, &image, stops)?;
        }
    }
    Ok(())
}

pub fn both_files_stop(alloc: Global) -> Result<(), Fail> {
    all_stops(alloc, Stops::Both)
}

pub fn the_log_stops(alloc: Global) -> Result<(), Fail> {
    all_stops(alloc, Stops::Log)
}

pub fn the_database_file_stops(alloc: Global) -> Result<(), Fail> {
    all_stops(alloc, Stops::Database)
}
