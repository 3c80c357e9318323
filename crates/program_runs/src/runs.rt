//! The program as one call, with its devices in memory.

use crate::calls::{Call, File};
use crate::devices::Devices;
use khe_app::khe;
use khe_base::{NoMemory, Seq, Text, both};
use khe_io::{Gate, MemoryShelf, MemorySink, Named, OpenGate};
use std::alloc::Global;
use std::thread::Threads;

/// Runs the program. The sink has room for a text of `room` bytes, or for as many as the devices say where that is
/// less. It answers the status, and the sink with what it took.
pub fn run<R: Threads + Sync>(
    rt: &R,
    alloc: Global,
    call: Call<'_>,
    devices: Devices,
    room: u64,
) -> Result<(u8, MemorySink), NoMemory> {
    run_at(rt, alloc, call, devices, room, &OpenGate)
}

/// The same where the workers of the run pass this gate.
pub fn run_at<R: Threads + Sync, G: Gate>(
    rt: &R,
    alloc: Global,
    call: Call<'_>,
    devices: Devices,
    room: u64,
    gate: &G,
) -> Result<(u8, MemorySink), NoMemory> {
    let shelf = shelf(alloc, call.files, devices);
    let sink = sink(alloc, devices, room.min(devices.room));
    let ((mut shelf, mut sink), words) = both(both(shelf, sink), owned(alloc, call.words))?;
    let status = khe(rt, alloc, words.as_slice(), &mut shelf, &mut sink, gate);
    Ok((status.0, sink))
}

/// Copies of these words.
fn owned(alloc: Global, words: &[&str]) -> Result<Seq<String>, NoMemory> {
    let mut all = Seq::new(alloc);
    let pushed = push_words(alloc, &mut all, words);
    pushed.and(Ok(all))
}

fn push_words(alloc: Global, all: &mut Seq<String>, words: &[&str]) -> Result<(), NoMemory> {
    for word in words {
        all.push(String::from_str(alloc, word)?)?;
    }
    Ok(())
}

/// A list of this number alone.
fn one_number(alloc: Global, number: u64) -> Result<Seq<u64>, NoMemory> {
    let mut numbers = Seq::new(alloc);
    let pushed = numbers.push(number);
    pushed.and(Ok(numbers))
}

/// A shelf with these files.
fn shelf(alloc: Global, files: &[File<'_>], devices: Devices) -> Result<MemoryShelf, NoMemory> {
    let failing = one_number(alloc, devices.failing_read);
    let (files, failing) = both(named(alloc, files), failing)?;
    Ok(MemoryShelf::new(files, devices.read, failing))
}

fn named(alloc: Global, files: &[File<'_>]) -> Result<Seq<Named>, NoMemory> {
    let mut all = Seq::new(alloc);
    let pushed = push_files(alloc, &mut all, files);
    pushed.and(Ok(all))
}

fn push_files(alloc: Global, all: &mut Seq<Named>, files: &[File<'_>]) -> Result<(), NoMemory> {
    for file in files {
        push_file(alloc, all, *file)?;
    }
    Ok(())
}

fn push_file(alloc: Global, all: &mut Seq<Named>, file: File<'_>) -> Result<(), NoMemory> {
    let (name, bytes) = both(
        Text::from_str(alloc, file.name),
        copy(alloc, file.text.as_bytes()),
    )?;
    all.push(Named { name, bytes })
}

fn copy(alloc: Global, bytes: &[u8]) -> Result<Seq<u8>, NoMemory> {
    Ok(Seq {
        items: bytes.to_vec(alloc)?,
    })
}

fn sink(alloc: Global, devices: Devices, room: u64) -> Result<MemorySink, NoMemory> {
    let failing = one_number(alloc, devices.failing_write)?;
    MemorySink::new(alloc, room, devices.write, failing)
}
