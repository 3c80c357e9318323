//! Compares what comes of the programs with what is to come, on the files that lie in this crate's `data/`, where the
//! gate runs it: the examples of the manual, each command by `khe`; pages and reports beside the ones of
//! programs written apart from this one; the manual's talk; and statuses. `checks/documents.py --copy` copies
//! the manual and the example files there, and `checks/page_reference.py` makes the pages. It prints each example that
//! differs, and how many there are and how many differ.
#![tactic(auto)]

mod comparing;
mod ends;
mod examples;
mod faults;
mod pages;
mod playing;
mod reading;
mod talks;

use comparing::{Tally, compare_manual, note_unrun};
use pages::compare_pages;
use reading::compare_reports;
use std::alloc::Global;
use std::fs;
use std::process::ExitCode;
use std::rt::Files;
use std::thread::Threads;
use talks::compare_talks;

/// Compares all that comes with what is to come.
fn compare_all<R: Threads + Files + Print + Alloc + Sync>(
    rt: &R,
    alloc: Global,
    tally: &mut Tally,
) {
    match fs::read_to_string(rt, "manual.md") {
        Ok(manual) => {
            compare_manual(rt, alloc, tally, manual.as_str());
            compare_talks(rt, alloc, tally, manual.as_str());
        }
        Err(_) => note_unrun(rt, tally, "manual.md"),
    }
    compare_pages(rt, alloc, tally);
    compare_reports(rt, alloc, tally);
}

fn main(rt: HostRuntime) -> ExitCode {
    let mut tally = Tally::default();
    compare_all(&rt, rt.alloc(), &mut tally);
    let _ = println!(rt;
        "{} compared, {} differing",
        tally.compared, tally.differing
    );
    ExitCode::from(u8::from(tally.unrun > 0))
}
