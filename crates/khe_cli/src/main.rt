//! The program `khe`: hands the words of the command line, the files and the standard output to
//! `khe_app::khe`, shows on a terminal how far long work is, and ends with the status.
#![tactic(auto)]

use khe_app::{Status, khe};
use khe_io::{FileShelf, StdSink};
use std::io::IsTerminal;
use std::process::ExitCode;
use std::rt::{Env, Files};
use std::thread::Threads;
use std::time::Clock;
use std::{env, io};
use terminal_progress::{Cleared, Progress, Terminals, work_of};

/// The words after the program's name. A word that is not UTF-8 leaves none of them, since such
/// words have no reading.
fn words<R: Env + AllocGlobal>(rt: &R) -> io::Result<Vec<String>> {
    let mut words = Vec::new(rt.alloc());
    match env::args(rt) {
        Ok(args) => {
            for word in args.skip(1) {
                words.push(word)?;
            }
            Ok(words)
        }
        Err(error) if error.kind() == io::ErrorKind::InvalidData => Ok(words),
        Err(error) => Err(error),
    }
}

/// Runs the program on the files and the output of a system. Where memory is refused while the words are taken,
/// the status is 6.
fn run<R>(rt: &R, terminals: Terminals) -> Status
where
    R: Env + Files + Print + Eprint + Clock + AllocGlobal + Threads + Sync,
{
    let Ok(words) = words(rt) else {
        return Status(6);
    };
    let words = words.as_slice();
    let progress = Progress::new(rt, work_of(words), terminals);
    let mut shelf = FileShelf::new(rt);
    let mut out = Cleared {
        out: StdSink::new(rt),
        progress: &progress,
    };
    let status = khe(rt, rt.alloc(), words, &mut shelf, &mut out, &progress);
    progress.clear();
    status
}

fn main(rt: HostRuntime) -> ExitCode {
    let terminals = Terminals {
        output: rt.stdout().is_terminal(),
        errors: rt.stderr().is_terminal(),
    };
    ExitCode::from(run(&rt, terminals).0)
}
