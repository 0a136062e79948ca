// What the words of a command line say is done, over the files that they name.
ghost use Rattle.std.specs.Prelude.{IfOk};
ghost use Rattle.program_stores.specs.Asked.{IsAskedBy, IsLentBy};

use crate::jobs::{Done, Job, Outputs};
use crate::telling::tell_person;
use crate::totals::print_total;
use crate::works::work_at;
use anyhow::Result;
use cg_text::ListVec;
use command_line::{Plan, PlanEnd, WordsCommand, commands_of, plan};
use file_reading::{
    Beginning, Finding, SeenFile, TotalText, fault_finding, finding_line, total_read,
    unread_finding,
};
use prof_http::Service;
use profile_records::Kind;
use run_stores::RunStore;
use std::alloc::{AllocError, Global};
use std::io::ErrorKind;
use std::process::ExitCode;
use std::rt::HostRuntime;
use std::{env, io};
use store_paths::{Cause, NotOpened, Opener, cause_line, error_line};

/// Prints the line of a refusal. No guarantee: of what is printed the checker knows nothing.
fn print_refused<R: Print>(rt: &R, reason: &str) -> io::Result<ExitCode> {
    println!(rt; "refused: {reason}")?;
    Ok(ExitCode::FAILURE)
}

/// The status of what a job came to over the store at a path, or of one that was not opened: why is printed. No guarantee:
/// `work_at` says what a job comes to.
fn status_of<S: RunStore + Drop, P: Opener<S>, W: Drop>(
    rt: &HostRuntime,
    db: &str,
    came_to: Result<Done<S, W>, NotOpened>,
) -> io::Result<ExitCode> {
    match came_to {
        Ok(done) => {
            if P::has_met_full_disk(done.store) {
                tell_person(rt, db, cause_line(Cause::DiskFull));
            }
            Ok(ExitCode::from(done.came_to?))
        }
        Err(refused) => {
            println!(rt; "{}", error_line(refused.end))?;
            if let Some(cause) = refused.cause {
                tell_person(rt, db, cause_line(cause));
            }
            Ok(ExitCode::FAILURE)
        }
    }
}

/// The total of the file at a path, and what was found of one that has none. No guarantee: which file is at a path the checker
/// does not know; `total_read` says what is made of its bytes.
fn total_at(rt: &HostRuntime, path: &str) -> (Result<TotalText, AllocError>, Option<Finding>) {
    let mut file = SeenFile::new(rt, path);
    let total = total_read(rt.alloc(), &mut file);
    let is_accepted = matches!(&total, Ok(text) if text.accepted);
    match (file.failed(), file.beginning()) {
        (Some(ErrorKind::OutOfMemory), _) => (Err(AllocError), None),
        (Some(kind), _) => (total, Some(unread_finding(kind))),
        (None, Some(Beginning::Empty)) => (total, Some(Finding::Empty)),
        (None, Some(beginning)) if !is_accepted => {
            (total, fault_finding(Kind::Callgrind, beginning))
        }
        _ => (total, None),
    }
}

/// Prints the total of the file at a path. No guarantee: as `total_at`.
fn run_total(rt: &HostRuntime, path: &str) -> io::Result<ExitCode> {
    let (total, finding) = total_at(rt, path);
    let status = print_total(&mut io::writer(rt), total)?;
    if let Some(finding) = finding {
        tell_person(rt, path, finding_line(finding));
    }
    Ok(ExitCode::from(status))
}

/// What a plan asks for: the total of the file at a path, or a job over the store at one.
#[derive(Drop)]
enum Asked<'a> {
    Total(&'a str),
    Job(&'a str, HeldJob<'a>),
}

/// A job, with the commands that it lends.
#[derive(Drop)]
enum HeldJob<'a> {
    Run(ListVec<WordsCommand<'a>>),
    Serve(Service),
}

impl<'a> HeldJob<'a> {
    fn lent(&self) -> Job<'_, 'a>
        ensures { IsLentBy self.now result }
    {
        match self {
            HeldJob::Run(commands) => Job::Run(commands.as_slice()),
            HeldJob::Serve(service) => Job::Serve(*service),
        }
    }
}

fn asked_of<'a>(alloc: Global, plan: &Plan<'a>) -> Result<Asked<'a>, AllocError>
    ensures { IfOk result (IsAskedBy plan.now) }
{
    match plan {
        Plan::Total { path } => Ok(Asked::Total(*path)),
        Plan::Serve {
            db,
            port,
            requests,
            most_bytes,
            log,
        } => {
            let service = Service {
                port: *port,
                requests: *requests,
                most: *most_bytes as usize,
                log: *log,
            };
            Ok(Asked::Job(*db, HeldJob::Serve(service)))
        }
        _ => {
            let (db, commands) = commands_of(alloc, plan)?;
            Ok(Asked::Job(db, HeldJob::Run(commands)))
        }
    }
}

/// Prints why words are no plan. No guarantee: of what is printed the checker knows nothing; `plan` says which end comes of
/// which words.
fn print_unplanned(rt: &HostRuntime, end: PlanEnd) -> io::Result<ExitCode> {
    match end {
        PlanEnd::Memory => return print_refused(rt, "out of memory"),
        PlanEnd::RunAndGroup => eprintln!(rt; "usage: --run and --group exclude each other")?,
        PlanEnd::LessRunAndLessGroup => {
            eprintln!(rt; "usage: --less-run and --less-group exclude each other")?
        }
        PlanEnd::Clap(error) => {
            error.print(rt)?;
            return Ok(ExitCode::from(error.exit_code() as u8));
        }
    }
    Ok(ExitCode::from(2))
}

/// Does what the words that the program was started with say, and prints what it came to. No guarantee: which files stand at
/// the paths of a plan the checker does not know; `asked_of`, `total_read` and `work_at` say what is made of them.
pub fn run<S: RunStore + Drop, P: Opener<S>, O: Outputs>(
    rt: &HostRuntime,
    outputs: &O,
) -> Result<ExitCode> {
    let words: Vec<String> = env::args(rt)?.collect(rt.alloc())?;
    let status = match plan(rt.alloc(), words.as_slice()) {
        Ok(plan) => match asked_of(rt.alloc(), &plan) {
            Ok(Asked::Total(path)) => run_total(rt, path),
            Ok(Asked::Job(db, job)) => {
                let came_to = work_at::<S, P, O>(rt, outputs, db, job.lent());
                status_of::<S, P, O::Out>(rt, db, came_to)
            }
            Err(AllocError) => print_refused(rt, "out of memory"),
        },
        Err(end) => print_unplanned(rt, end),
    };
    Ok(status?)
}
