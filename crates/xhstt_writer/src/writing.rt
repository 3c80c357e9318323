//! Writing an archive as a text.

ghost use Rattle.std.specs.Prelude.{◌≡◌, IfOk};
ghost use Rattle.xhstt_shape.specs.WellFormed.{IsWellFormed};
ghost use Rattle.xhstt_writer.specs.Archives as spec;

use crate::archives::put_archive;
use crate::buffer::Buffer;
use khe_base::{NoMemory, Seq};
use std::alloc::Global;
use xhstt_shape::Archive;

/// The bytes of an archive in its canonical spelling.
///
/// They are the declaration `<?xml version="1.0" encoding="UTF-8"?>` and a line feed, and then the
/// outermost element. An element with children is its start tag, a line feed, its children in the
/// order of the table of elements, its end tag and a line feed. A text or a number is
/// `<N>value</N>` and a line feed. An element with neither children nor text is `<N/>` and a line
/// feed. Attributes stand in the order of the table, each after one space, as `name="value"`.
/// Values and texts are escaped, and numbers have no leading zeros. What is missing, an empty list
/// and an empty name are not written; a number that has a default is.
///
/// Where the archive is well formed, the bytes spell a text that is read as the same archive, but for
/// the places of its references and names.
///
/// Memory is taken in proportion to the bytes, and where it is refused, `NoMemory` comes. The time
/// is linear in the bytes: each text is copied in runs of bytes that are written as themselves.
pub fn write(alloc: Global, archive: &Archive) -> Result<Seq<u8>, NoMemory>
    ensures canonical { IfOk result (λ bytes. bytes ≡ spec.canonical archive.now) }
    ensures read_back { IfOk result (λ bytes. IsWellFormed archive.now → spec.IsReadAs bytes archive.now) }
{
    let mut buffer = Buffer {
        bytes: Vec::new(alloc),
        refused: false,
    };
    put_archive(&mut buffer, archive);
    if buffer.refused {
        return Err(NoMemory);
    }
    Ok(Seq {
        items: buffer.bytes,
    })
}
