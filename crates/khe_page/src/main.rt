//! The program `khe_page`: hands the words of the command line, the files and the standard output to
//! `timetable_page::page`, says on standard error why there is no page, and ends with its status.
#![tactic(auto)]

use khe_io::{FileShelf, StdSink};
use std::process::ExitCode;
use std::rt::{Env, Files};
use std::thread::Threads;
use std::{env, io};
use timetable_page::{Status, page};

/// The words after the program's name. A word that is not UTF-8 leaves none of them, since such
/// words have no reading.
fn words<R: Env + AllocGlobal>(rt: &R) -> io::Result<Vec<String>> {
    let mut words = Vec::new(rt.alloc());
    match env::args(rt) {
        Ok(args) => {
            for word in args.skip(1) {
                words.push(word)?;
            }
            Ok(words)
        }
        Err(error) if error.kind() == io::ErrorKind::InvalidData => Ok(words),
        Err(error) => Err(error),
    }
}

/// Runs the program on the files and the output of a system. Where the words cannot be taken for
/// want of memory the status is 6.
fn run<R: Env + Files + Print + Threads + Sync + AllocGlobal>(rt: &R) -> Status {
    let Ok(words) = words(rt) else {
        return Status(6);
    };
    let mut shelf = FileShelf::new(rt);
    let mut out = StdSink::new(rt);
    page(rt, rt.alloc(), words.as_slice(), &mut shelf, &mut out)
}

/// What is said on standard error of a run that ended with a status above 0.
fn told(status: u8) -> &'static str {
    match status {
        2 =>
            "khe-page: words not understood; they are: ARCHIVE [--solutions N | --solution K ..] [--workers N]",
        3 => "khe-page: archive refused; the page says why",
        4 => "khe-page: the archive could not be read",
        5 => "khe-page: the page could not be written",
        _ => "khe-page: out of memory",
    }
}

fn main(rt: HostRuntime) -> ExitCode {
    let status = run(&rt);
    if status.0 != 0 {
        let _ = eprintln!(&rt; "{}", told(status.0));
    }
    ExitCode::from(status.0)
}
