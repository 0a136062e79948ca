//! A warehouse of run profiles whose every figure is exact.
#![tactic(auto)]

ghost use Rattle.std.specs.Prelude.{true, [], None};

use anyhow::Result;
use host_stores::{HostOpener, Openings, RunningHost, SqlMaker};
use page_runs::PageRuns;
use program_stores::Outputs;
use sqlite_disk::{Disk, Start};
use std::io;
use std::io::Printer;
use std::process::ExitCode;
use store_openers::PathOpener;
use store_paths::{FileOpener, Opener, StoreMaker};

/// The files of the host. Of what they hold the checker knows nothing: what is proved is so for all that they may hold. As
/// the kit's `Unknown`, it supposes that a torn write leaves each byte old or new.
#[derive(Drop)]
struct HostFiles;

impl Start for HostFiles {
    ghost log = { [] };

    ghost db = { [] };

    ghost is_mixing = { true };

    fn mixes() -> bool {
        true
    }
}

impl Openings for HostFiles {
    fn next() -> HostFiles {
        HostFiles
    }
}

/// The standard output, of which the checker knows no byte.
#[derive(Drop)]
struct StandardOutput<'a> {
    rt: &'a HostRuntime,
}

impl<'a> Outputs for StandardOutput<'a> {
    type Out = Printer<'a, HostRuntime>;

    ghost fresh = { None };

    fn next(&self) -> Printer<'a, HostRuntime> {
        io::writer(self.rt)
    }
}

// A store over files of any type is faster to prove than one over those of a host: so it is two functions.

/// Does what the words that the program was started with say, over a store that `P` opens in its pages.
fn run_in_pages<D: Disk + Drop, P: Opener<PageRuns<D>>, O: Outputs>(
    rt: &HostRuntime,
    outputs: &O,
) -> Result<ExitCode> {
    program_stores::run::<PageRuns<D>, P, O>(rt, outputs)
}

/// The same over files that `F` opens, whatever these hold.
fn run_over<F: FileOpener, M: StoreMaker<F>, O: Outputs>(
    rt: &HostRuntime,
    outputs: &O,
) -> Result<ExitCode> {
    run_in_pages::<F::File, PathOpener<F, M>, O>(rt, outputs)
}

fn main(rt: HostRuntime) -> Result<ExitCode> {
    let outputs = StandardOutput { rt: &rt };
    run_over::<HostOpener<RunningHost<HostFiles>>, SqlMaker, StandardOutput>(&rt, &outputs)
}
