//! The program `khe-talk`: hands the words of the command line, the files and the standard input and output to
//! `talk_app::talk_by_words`, and ends with its status.
#![tactic(auto)]

use khe_app::Status;
use khe_io::{FileShelf, StdSink};
use std::io::{BufReader, Input};
use std::process::ExitCode;
use std::rt::{Env, Files};
use std::{env, io};
use talk_app::{Lines, talk_by_words};

/// The words after the program's name. A word that is not UTF-8 leaves none of them, since such
/// words have no reading.
fn words<R: Env + AllocGlobal>(rt: &R) -> io::Result<Vec<String>> {
    let mut words = Vec::new(rt.alloc());
    match env::args(rt) {
        Ok(args) => {
            for word in args.skip(1) {
                words.push(word)?;
            }
            Ok(words)
        }
        Err(error) if error.kind() == io::ErrorKind::InvalidData => Ok(words),
        Err(error) => Err(error),
    }
}

/// Talks over the files, the input and the output of a system. Where memory is refused for the words or for the
/// room for what is read, the status is 6.
fn run<R: Env + Files + Print + Input + AllocGlobal>(rt: &R) -> Status {
    let Ok(words) = words(rt) else {
        return Status(6);
    };
    let Ok(reader) = BufReader::new(rt.alloc(), rt.reader()) else {
        return Status(6);
    };
    let mut lines = Lines::new(reader);
    let mut shelf = FileShelf::new(rt);
    let mut out = StdSink::new(rt);
    talk_by_words(
        rt.alloc(),
        words.as_slice(),
        &mut shelf,
        &mut lines,
        &mut out,
    )
}

fn main(rt: HostRuntime) -> ExitCode {
    ExitCode::from(run(&rt).0)
}
