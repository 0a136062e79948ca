// Commands are done over the store at a path beside others, who may write it meanwhile.
ghost use Rattle.std.specs.Prelude.{◌≡◌, IfOk, IfSome};
ghost use Rattle.store_paths.specs.Opened.{RepresentsHeld};
ghost use Rattle.program_stores.specs.Theorem.{WasDone};
ghost use Rattle.program_stores.specs.declared.jobs.Job.TheVariants as jobs;

use crate::jobs::{Done, Job, Outputs};
use crate::session::work_over;
use crate::telling::tell_remarks;
use command_line::WordsCommand;
use requests::Command;
use run_stores::RunStore;
use std::fs;
use std::fs::File;
use std::io::Read;
use std::rt::HostRuntime;
use store_paths::{IfStands, Opener, Standing, Unread, is_no_file};

/// Whether a command changes nothing, and what it reads beside the store can be read once more: a pipe cannot. No
/// guarantee: of files the checker knows nothing.
fn may_be_repeated(rt: &HostRuntime, command: &WordsCommand<'_>) -> bool {
    match command {
        Command::Annotate { source, .. } => match fs::metadata(rt, *source) {
            Ok(found) => found.is_file(),
            Err(_) => true,
        },
        other => other.only_reads(),
    }
}

/// The commands of a job that may be done beside others: they only read. Which do, no clause says, as of `may_be_repeated`.
pub(crate) fn commands_beside<'c, 'a>(
    rt: &HostRuntime,
    path: &str,
    job: Job<'c, 'a>,
) -> Option<&'c [WordsCommand<'a>]>
    ensures { IfSome result (λ commands. job.entry ≡ jobs.Run commands) }
{
    match job {
        Job::Run(commands)
            if !is_no_file(path) && commands.iter().all(|command| may_be_repeated(rt, command)) =>
            Some(commands),
        _ => None,
    }
}

/// The store at a path, to be read beside others, and what its files were. A file that is read without a log is locked for
/// that. `Standing` says when what was read is what one commit left.
pub(crate) fn store_beside_at<S: RunStore + Drop, P: Opener<S>>(
    rt: &HostRuntime,
    path: &str,
) -> Result<(S, Standing), Unread>
    ensures { IfOk result (λ opened. RepresentsHeld S.StoreState P.Opener.held opened.0) }
{
    let (store, standing) = P::beside(rt, path)?;
    if standing.is_read_with_log() {
        Ok((store, standing))
    } else {
        drop(store);
        Err(Unread::Unfit)
    }
}

/// Does commands that only read over a store that was read beside others, and prints what they come to if what was read stood
/// still: else nothing was printed.
pub(crate) fn done_beside<S: RunStore + Drop, P: Opener<S>, O: Outputs>(
    rt: &HostRuntime,
    outputs: &O,
    store: S,
    standing: Standing,
    commands: &[WordsCommand<'_>],
) -> Result<Done<S, O::Out>, Unread>
    ensures { RepresentsHeld S.StoreState P.Opener.held store
        → IfOk result (WasDone ⟦<File as Read>⟧.remaining O.Out.contents S.StoreState P.Opener.held (jobs.Run commands.entry) O.Outputs.fresh) }
{
    let mut remarks = Vec::new(rt.alloc());
    let out = IfStands::new(outputs.next(), rt, Some(standing));
    let (came_to, mut out, store) = work_over(rt, out, store, commands, &mut remarks);
    if out.has_stood() {
        tell_remarks(rt, &remarks);
        Ok(Done {
            came_to,
            out: out.into_out(),
            store,
        })
    } else {
        drop((out, store));
        Err(Unread::Moved)
    }
}
