//! Command lines of a document, as far as documents use them: `khe` with its words, perhaps only the first
//! or the last lines of it, or to a file; the status; a file that is made by `printf`. And the files that documents show.

use crate::faults::Fault;
use khe_app::khe;
use khe_base::{NoMemory, Seq, Text};
use khe_io::{FileShelf, MemorySink, OpenGate};
use std::alloc::Global;
use std::fs;
use std::rt::Files;
use std::thread::Threads;

/// More bytes than any example writes.
pub(crate) const ROOM: u64 = 1_000_000;

/// Adds what the commands of a line write to a text.
pub(crate) fn came_of<R: Threads + Files + Sync>(
    rt: &R,
    alloc: Global,
    line: &str,
    came: &mut Text,
) -> Result<(), Fault> {
    let mut status = 0u8;
    for step in line.split("; ") {
        if step == "echo $?" {
            came.push_number(u128::from(status))?;
            came.push_literal("\n")?;
        } else {
            status = play_step(rt, alloc, step, came)?;
        }
    }
    Ok(())
}

/// Carries out a command, and answers its status.
fn play_step<R: Threads + Files + Sync>(
    rt: &R,
    alloc: Global,
    step: &str,
    came: &mut Text,
) -> Result<u8, Fault> {
    if let Some(made) = step.strip_prefix("printf '") {
        if let Some((text, name)) = made.split_once("' > ") {
            fs::write(rt, name, text)?;
            return Ok(0);
        }
    }
    match step.split_once(" > ") {
        Some((command, name)) => run_to_file(rt, alloc, command, name),
        None => run_step(rt, alloc, step, came),
    }
}

/// Makes a file of the lines that are shown of it.
pub(crate) fn make_file<R: Files>(
    rt: &R,
    alloc: Global,
    name: &str,
    shown: &str,
) -> Result<(), Fault> {
    let mut text = Text::new(alloc);
    text.push_str(shown)?;
    text.push_literal("\n")?;
    fs::write(rt, name, text.as_str())?;
    Ok(())
}

/// Runs `khe` with the words of a command, and adds what it writes, or its first or last lines where the command
/// asks for these alone. It answers the status.
fn run_step<R: Threads + Files + Sync>(
    rt: &R,
    alloc: Global,
    step: &str,
    came: &mut Text,
) -> Result<u8, Fault> {
    let (command, kept) = match step.split_once(" | ") {
        Some((command, kept)) => (command, kept),
        None => (step, ""),
    };
    let (status, sink) = run(rt, alloc, command)?;
    push_kept(came, text_of(sink.taken()), kept)?;
    Ok(status)
}

/// Runs `khe` with the words of a command, and writes what it writes to a file. It answers the status.
fn run_to_file<R: Threads + Files + Sync>(
    rt: &R,
    alloc: Global,
    command: &str,
    name: &str,
) -> Result<u8, Fault> {
    let (status, sink) = run(rt, alloc, command)?;
    fs::write(rt, name, sink.taken())?;
    Ok(status)
}

/// The text of bytes.
pub(crate) fn text_of(bytes: &[u8]) -> &str {
    match std::str::from_utf8(bytes) {
        Ok(text) => text,
        Err(_) => "bytes that are no text",
    }
}

/// Adds a text, or what `head -N` or `tail -N` keeps of it.
fn push_kept(came: &mut Text, text: &str, kept: &str) -> Result<(), NoMemory> {
    if let Some(count) = kept.strip_prefix("tail -") {
        let left_out = text.lines().count().saturating_sub(number_of(count));
        return push_lines(came, text, left_out, usize::MAX);
    }
    if let Some(count) = kept.strip_prefix("head -") {
        return push_lines(came, text, 0, number_of(count));
    }
    came.push_str(text)
}

/// The number of lines that a command asks for.
fn number_of(word: &str) -> usize {
    word.parse::<usize>().unwrap_or(0)
}

/// Adds lines of a text, after a number of lines that are left out.
fn push_lines(came: &mut Text, text: &str, left_out: usize, count: usize) -> Result<(), NoMemory> {
    for line in text.lines().skip(left_out).take(count) {
        came.push_str(line)?;
        came.push_literal("\n")?;
    }
    Ok(())
}

/// Runs `khe` with the words of a command on the files of the folder.
fn run<R: Threads + Files + Sync>(
    rt: &R,
    alloc: Global,
    command: &str,
) -> Result<(u8, MemorySink), NoMemory> {
    run_in_room(rt, alloc, command, ROOM)
}

/// Runs `khe` with the words of a command, where the given number of bytes can be written.
pub(crate) fn run_in_room<R: Threads + Files + Sync>(
    rt: &R,
    alloc: Global,
    command: &str,
    room: u64,
) -> Result<(u8, MemorySink), NoMemory> {
    let words = words_of(alloc, command)?;
    let mut sink = MemorySink::new(alloc, room, 1_000_000, Seq::new(alloc))?;
    let mut shelf = FileShelf::new(rt);
    let status = khe(
        rt,
        alloc,
        words.as_slice(),
        &mut shelf,
        &mut sink,
        &OpenGate,
    );
    Ok((status.0, sink))
}

/// The words of a command after its first one.
pub(crate) fn words_of(alloc: Global, command: &str) -> Result<Seq<String>, NoMemory> {
    let mut words = Seq::new(alloc);
    let pushed = push_words(alloc, &mut words, command);
    pushed.and(Ok(words))
}

fn push_words(alloc: Global, words: &mut Seq<String>, command: &str) -> Result<(), NoMemory> {
    for word in command.split(' ').skip(1) {
        words.push(String::from_str(alloc, word)?)?;
    }
    Ok(())
}

/// Adds what stands behind the first words of the line that refuses the archive of a file in the folder of faults.
pub(crate) fn refusal_of<R: Threads + Files + Sync>(
    rt: &R,
    alloc: Global,
    file: &str,
    came: &mut Text,
) -> Result<(), Fault> {
    let mut command = Text::new(alloc);
    command.push_literal("khe evaluate examples/faults/")?;
    command.push_str(file)?;
    command.push_literal(".xml")?;
    let (_, sink) = run(rt, alloc, command.as_str())?;
    let line = text_of(sink.taken());
    let refusal = line.strip_prefix("khe: archive refused: ");
    came.push_str(refusal.unwrap_or(line))?;
    Ok(())
}
