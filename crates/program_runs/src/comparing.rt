//! What a run ends with beside what it should end with.

use crate::calls::{Call, End};
use crate::devices::Devices;
use crate::runs::run;
use khe_base::{NoMemory, Text, both};
use std::alloc::Global;
use std::thread::Threads;

/// More bytes than any text has beyond the expected one, so that a longer text shows.
const SPARE: u64 = 1_000;

/// How many bytes are shown of texts that differ.
const SHOWN: usize = 200;

/// How a run ended otherwise than it should.
#[derive(Debug, Drop)]
pub struct Difference {
    /// The first byte at which the texts differ, or the length of the shorter one.
    pub at: usize,
    /// What was written from there on, as far as it is shown.
    pub written: Text,
    /// What should have been written from there on.
    pub wanted: Text,
    /// The status that the run ended with.
    pub status: u8,
}

/// Runs the program, and answers how it ended otherwise than with this status after exactly this text.
pub fn compared<R: Threads + Sync>(
    rt: &R,
    alloc: Global,
    call: Call<'_>,
    devices: Devices,
    end: End<'_>,
) -> Result<Option<Difference>, NoMemory> {
    let room = (end.text.len() as u64).saturating_add(SPARE);
    let (status, sink) = run(rt, alloc, call, devices, room)?;
    difference_of(alloc, status, sink.taken(), end)
}

fn difference_of(
    alloc: Global,
    status: u8,
    taken: &[u8],
    end: End<'_>,
) -> Result<Option<Difference>, NoMemory> {
    let text = end.text.as_bytes();
    if status == end.status && taken == text {
        return Ok(None);
    }
    let at = first_difference(taken, text);
    let written = Text::from_str(alloc, shown(taken, at));
    let (written, wanted) = both(written, Text::from_str(alloc, shown(text, at)))?;
    Ok(Some(Difference {
        at,
        written,
        wanted,
        status,
    }))
}

/// The first place at which two texts differ, or the length of the shorter one.
fn first_difference(taken: &[u8], text: &[u8]) -> usize {
    let mut at = 0usize;
    for (one, other) in taken.iter().zip(text) {
        if one != other {
            return at;
        }
        at = at.saturating_add(1);
    }
    at
}

/// What stands in a text from a place on.
fn behind(text: &[u8], at: usize) -> &[u8] {
    if at <= text.len() { &text[at..] } else { b"" }
}

/// A text as far as it is shown.
fn first_few(text: &[u8]) -> &[u8] {
    let count = text.len().min(SHOWN);
    &text[..count]
}

/// What is shown of a text from a place on.
fn shown(text: &[u8], at: usize) -> &str {
    match std::str::from_utf8(first_few(behind(text, at))) {
        Ok(text) => text,
        Err(_) => "bytes that are no text",
    }
}
