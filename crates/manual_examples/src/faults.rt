//! Why the examples could not be run.

use khe_base::NoMemory;
use std::io;

/// Why an example could not be run.
#[derive(Clone, Copy)]
pub(crate) enum Fault {
    /// A file could not be read or written.
    File,
    /// Memory ran out.
    NoMemory,
}

impl From<io::Error> for Fault {
    fn from(_: io::Error) -> Fault {
        Fault::File
    }
}

impl From<NoMemory> for Fault {
    fn from(_: NoMemory) -> Fault {
        Fault::NoMemory
    }
}
