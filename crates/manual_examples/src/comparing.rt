//! What the manual shows beside what comes.

use crate::examples::{Example, example_of, is_shown};
use crate::playing::{came_of, make_file, refusal_of};
use khe_base::Text;
use std::alloc::Global;
use std::fs;
use std::rt::Files;
use std::thread::Threads;

/// How much was compared, how much of it differed, and how much could not be run and so was not compared.
#[derive(Clone, Copy, Default)]
pub(crate) struct Tally {
    pub(crate) compared: u32,
    pub(crate) differing: u32,
    pub(crate) unrun: u32,
}

/// Notes in a tally that something could not be run, and prints what.
pub(crate) fn note_unrun<R: Print>(rt: &R, tally: &mut Tally, what: &str) {
    tally.unrun = tally.unrun.saturating_add(1);
    let _ = println!(rt; "{} could not be run", what);
}

/// Notes in a tally whether what came is what is shown, and prints what is not.
fn note<R: Print>(rt: &R, tally: &mut Tally, what: &str, came: &str, shown: &str) {
    tally.compared = tally.compared.saturating_add(1);
    if !is_shown(came, shown) {
        tally.differing = tally.differing.saturating_add(1);
        let _ = println!(rt; "{}\nshown:\n{}\ncame:\n{}", what, shown, came);
    }
}

/// Compares all that the manual shows with what comes.
pub(crate) fn compare_manual<R: Threads + Files + Print + Alloc + Sync>(
    rt: &R,
    alloc: Global,
    tally: &mut Tally,
    manual: &str,
) {
    compare_blocks(rt, alloc, tally, manual);
    compare_refusals(rt, alloc, tally, manual);
}

/// Compares the blocks of a document. Every second piece between fences is one.
fn compare_blocks<R: Threads + Files + Print + Alloc + Sync>(
    rt: &R,
    alloc: Global,
    tally: &mut Tally,
    document: &str,
) {
    let mut before = None;
    for piece in document.split("\n```") {
        before = match before {
            Some(text) => {
                compare_block(rt, alloc, tally, text, piece);
                None
            }
            None => Some(piece),
        };
    }
}

/// Compares a block with what comes of its commands, and makes the files that it shows. A block without commands after
/// the name of a file in a paragraph that ends with a colon shows that file.
fn compare_block<R: Threads + Files + Print + Alloc + Sync>(
    rt: &R,
    alloc: Global,
    tally: &mut Tally,
    before: &str,
    block: &str,
) {
    for text in block.split("\n$ ").skip(1) {
        compare_example(rt, alloc, tally, example_of(text));
    }
    if let Some(file) = file_of(before) {
        compare_file(rt, tally, file, block);
    }
}

/// The file of examples that is named in the last line of a text which ends with a colon.
fn file_of(text: &str) -> Option<&str> {
    let line = text.trim_end().strip_suffix(':')?.lines().last()?;
    line.split('`').find(|word| word.starts_with("examples/"))
}

/// Compares a block with the file that it shows.
fn compare_file<R: Files + Print + Alloc>(rt: &R, tally: &mut Tally, file: &str, block: &str) {
    match fs::read_to_string(rt, file) {
        Ok(text) => note(rt, tally, file, text.as_str(), example_of(block).shown),
        Err(_) => note_unrun(rt, tally, file),
    }
}

/// Compares an example with what comes of its command. A file that is shown is made, and nothing is compared.
fn compare_example<R: Threads + Files + Print + Sync>(
    rt: &R,
    alloc: Global,
    tally: &mut Tally,
    example: Example<'_>,
) {
    if let Some(name) = example.command.strip_prefix("cat ") {
        if make_file(rt, alloc, name, example.shown).is_err() {
            note_unrun(rt, tally, name);
        }
        return;
    }
    let mut came = Text::new(alloc);
    match came_of(rt, alloc, example.command, &mut came) {
        Ok(()) => note(rt, tally, example.command, came.as_str(), example.shown),
        Err(_) => note_unrun(rt, tally, example.command),
    }
}

/// Compares the rows of the table of refusals with what comes of their files.
fn compare_refusals<R: Threads + Files + Print + Sync>(
    rt: &R,
    alloc: Global,
    tally: &mut Tally,
    document: &str,
) {
    for line in document.lines() {
        if let Some((refusal, file)) = refusal_in(line) {
            compare_refusal(rt, alloc, tally, refusal, file);
        }
    }
}

/// The refusal and the file, without its ending, of a row of the table of refusals.
fn refusal_in(line: &str) -> Option<(&str, &str)> {
    let (refusal, more) = line.strip_prefix("| `")?.split_once("` | `")?;
    let (file, _) = more.split_once(".xml` | ")?;
    Some((refusal, file))
}

/// Compares a refusal with what comes of its file.
fn compare_refusal<R: Threads + Files + Print + Sync>(
    rt: &R,
    alloc: Global,
    tally: &mut Tally,
    refusal: &str,
    file: &str,
) {
    let mut came = Text::new(alloc);
    match refusal_of(rt, alloc, file, &mut came) {
        Ok(()) => note(rt, tally, file, came.as_str(), refusal),
        Err(_) => note_unrun(rt, tally, file),
    }
}
