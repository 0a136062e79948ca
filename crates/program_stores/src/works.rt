// A job is done over the store at a path, which is made, migrated or refused first.
ghost use Rattle.std.specs.Prelude.{IfOk};
ghost use Rattle.store_paths.specs.Opened.{RepresentsHeld};
ghost use Rattle.program_stores.specs.Theorem.{WasDone};

use crate::beside::{commands_beside, done_beside, store_beside_at};
use crate::jobs::{Done, Job, Outputs};
use crate::session::work_over;
use crate::telling::{tell_person, tell_remarks};
use prof_http::serve_over;
use prof_store::OpenError;
use run_stores::RunStore;
use std::fs::File;
use std::io::Read;
use std::rt::HostRuntime;
use store_paths::{IfStands, NotOpened, Opener, Patience, TRIES, Unread};

/// So often a job is tried beside others, even where that takes longer than patience lasts.
const LEAST_TRIES: u32 = 3;

/// The store at a path, to be changed with no other beside. What is not plainly ours is looked at in its database first,
/// which migrates a store of version 1 and says what is wrong with others; `P` says what the files hold then.
fn store_to_change_at<S: RunStore + Drop, P: Opener<S>>(
    rt: &HostRuntime,
    db: &str,
    patience: Patience,
    cells_to_keep: usize,
) -> Result<S, NotOpened>
    ensures { IfOk result (RepresentsHeld S.StoreState P.Opener.held) }
{
    match P::to_change(rt, db, patience, cells_to_keep) {
        Err(
            NotOpened {
                end: OpenError::Store,
                ..
            },
        ) => {}
        opened => return opened,
    }
    P::look(rt, db, patience)?;
    P::to_change(rt, db, patience, cells_to_keep)
}

/// Does a job over a store that no other has open, and copies what was committed from the log into the file; where that
/// fails, as over files that are only read, it stands in the log, and the next opening finds it there.
fn done_alone<S: RunStore + Drop, P: Opener<S>, O: Outputs>(
    rt: &HostRuntime,
    outputs: &O,
    store: S,
    job: Job<'_, '_>,
) -> Done<S, O::Out>
    ensures { RepresentsHeld S.StoreState P.Opener.held store
        → WasDone ⟦<File as Read>⟧.remaining O.Out.contents S.StoreState P.Opener.held job.entry O.Outputs.fresh result }
{
    let (came_to, out, mut store) = match job {
        Job::Run(commands) => {
            let mut remarks = Vec::new(rt.alloc());
            // (what prints is of one type, so that it is compiled once)
            let out = IfStands::new(outputs.next(), rt, None);
            let (came_to, out, store) = work_over(rt, out, store, commands, &mut remarks);
            tell_remarks(rt, &remarks);
            (came_to, out.into_out(), store)
        }
        Job::Serve(service) => {
            let (came_to, store) = serve_over(rt, store, service);
            (came_to, outputs.next(), store)
        }
    };
    let _copied = P::checkpoint(&mut store);
    Done {
        came_to,
        out,
        store,
    }
}

/// The store at a path, with no other beside, for a job that was not done beside others for this reason. Where nothing is known
/// of the store, it is only read over the files as they are, if the job only reads and their log is not long; and one that is
/// to be refused is refused before anything of it is written, as far as `look_beside` sees it.
fn store_alone_at<S: RunStore + Drop, P: Opener<S>>(
    rt: &HostRuntime,
    db: &str,
    patience: Patience,
    job: Job<'_, '_>,
    unread: Unread,
) -> Result<S, NotOpened>
    ensures { IfOk result (RepresentsHeld S.StoreState P.Opener.held) }
{
    match unread {
        Unread::Moved => return Err(OpenError::Store.into()),
        Unread::Refused(refused) => return Err(refused),
        Unread::First => {}
        Unread::Unfit => {
            if job.only_reads() {
                match P::alone(rt, db, patience) {
                    Err(refused) if refused.end != OpenError::Memory => {}
                    opened => return opened,
                }
            }
            P::look_beside(rt, db)?;
        }
    }
    store_to_change_at::<S, P>(rt, db, patience, job.cells_to_keep())
}

/// Does a job over the store at a path, which is made where there is none: one that only reads beside others, if it can be
/// read so; no lock is taken then, and nothing is made or changed. Where others write meanwhile, it begins anew, as long as
/// patience lasts. `P` says what the files held when the store was opened over which it was done, whoever had made or
/// changed them.
pub(crate) fn work_at<S: RunStore + Drop, P: Opener<S>, O: Outputs>(
    rt: &HostRuntime,
    outputs: &O,
    db: &str,
    job: Job<'_, '_>,
) -> Result<Done<S, O::Out>, NotOpened>
    ensures { IfOk result (WasDone ⟦<File as Read>⟧.remaining O.Out.contents S.StoreState P.Opener.held job.entry O.Outputs.fresh) }
{
    let patience = Patience::begin(rt);
    if P::make_missing(rt, db, patience)? {
        tell_person(rt, db, "it is new");
    }
    // Why it is not done beside others.
    let mut unread = Unread::Unfit;
    if let Some(commands) = commands_beside(rt, db, job) {
        'tries: for turn in 0..TRIES {
            unread = match store_beside_at::<S, P>(rt, db) {
                Ok((store, standing)) => {
                    match done_beside::<S, P, O>(rt, outputs, store, standing, commands) {
                        Ok(done) => return Ok(done),
                        Err(moved) => moved,
                    }
                }
                Err(unread) => unread,
            };
            match unread {
                Unread::Moved if patience.is_left(rt) || turn < LEAST_TRIES => {}
                // While another makes the files, or opens them, they may be so for a moment.
                Unread::Unfit if turn == 0 => {}
                _ => break 'tries,
            }
        }
    }
    let store = store_alone_at::<S, P>(rt, db, patience, job, unread)?;
    Ok(done_alone::<S, P, O>(rt, outputs, store, job))
}
