//! A real file, and the real output.

use khe_io::{FileShelf, Shelf, StdSink, TakeFault, put_all, take_all};
use std::alloc::Global;
use std::fs;
use std::test::Fail;

/// Whether these bytes are taken.
fn takes<S: Shelf>(alloc: Global, shelf: &mut S, name: &str, limit: u64, bytes: &[u8]) -> bool {
    match take_all(alloc, shelf, name, limit) {
        Ok(taken) => taken.as_slice() == bytes,
        Err(_) => false,
    }
}

/// Why nothing is taken.
fn fault_of<S: Shelf>(alloc: Global, shelf: &mut S, name: &str, limit: u64) -> Option<TakeFault> {
    take_all(alloc, shelf, name, limit).err()
}

/// Whether this text of a file is taken, and neither a file that is not there nor a folder.
fn reads<S: Shelf>(alloc: Global, shelf: &mut S, path: &str, text: &[u8]) -> bool {
    takes(alloc, shelf, path, 100, text)
        && fault_of(alloc, shelf, "reader_tests_no_such_file.txt", 100)
            == Some(TakeFault::ReadFault)
        && fault_of(alloc, shelf, ".", 100) == Some(TakeFault::ReadFault)
}

#[test]
fn reads_files(rt: HostRuntime) -> Result<(), Fail> {
    let path = "reader_tests_reads_files.txt";
    fs::write(&rt, path, "a text")?;
    let is_read = reads(rt.alloc(), &mut FileShelf::new(&rt), path, b"a text");
    fs::remove_file(&rt, path)?;
    assert!(rt; is_read);
    Ok(())
}

#[test]
fn writes_to_the_standard_output(rt: HostRuntime) {
    let mut sink = StdSink::new(&rt);
    assert!(rt; put_all(&mut sink, b"text_tests\n").is_ok());
}
