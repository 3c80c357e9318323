//! The files of the system as a shelf.

use crate::faults::count_fault;
use crate::{Failed, Shelf};
use std::fs::OpenFile;
use std::io::Read;
use std::rt::Files;
use std::{fs, io};

/// The files of the system as a shelf: the bytes of a name are a path. It does not tell what stands in the
/// files, counts each error as a fault, and is never sound.
#[derive(Drop)]
pub struct FileShelf<'a, R: Files> {
    system: &'a R,
    source: Option<R::File>,
    faults: u64,
}

impl<'a, R: Files> FileShelf<'a, R> {
    ghost use Rattle.std.specs.Prelude.{◌≡◌, false};

    /// A shelf over the files of a system. No source is open and no fault is counted. It takes no
    /// memory.
    pub fn new(system: &'a R) -> FileShelf<'a, R>
        ensures closed { ⟦<FileShelf<'a, R> as Shelf>⟧.is_open result ≡ false }
        ensures faults { ⟦<FileShelf<'a, R> as Shelf>⟧.faults result ≡ 0 }
    {
        FileShelf {
            system,
            source: None,
            faults: 0,
        }
    }
}

/// Opens a file for reading. A folder is refused.
fn open_file<R: Files>(system: &R, name: &str) -> io::Result<R::File> {
    let file = fs::open(system, name)?;
    if OpenFile::metadata(&file)?.is_dir() {
        return Err(io::Error::from(io::ErrorKind::IsADirectory));
    }
    Ok(file)
}

impl<'a, R: Files> Shelf for FileShelf<'a, R> {
    ghost use Rattle.std.specs.Prelude.{None, is_some, false};

    ghost holdings = { λ _. None };

    ghost is_open = { λ s. is_some s.source };

    ghost left = { λ _. None };

    ghost faults = { λ s. s.faults };

    ghost is_sound = { λ _. false };

    fn open(&mut self, name: &str) -> Result<(), Failed> {
        self.source = None;
        match open_file(self.system, name) {
            Ok(file) => {
                self.source = Some(file);
                Ok(())
            }
            Err(_) => Err(count_fault(&mut self.faults)),
        }
    }

    fn read(&mut self, buf: &mut [u8]) -> Result<usize, Failed> {
        let Some(file) = &mut self.source else {
            unreachable!()
        };
        match file.read(buf) {
            Ok(count) => Ok(count),
            Err(_) => Err(count_fault(&mut self.faults)),
        }
    }

    ghost use Rattle.std.proofs.Common.{rules};

    ghost sound_tells_holdings = { λ s sound. Prim.search rules };

    ghost sound_tells_left = { λ s sound is_open. Prim.search rules };
}
