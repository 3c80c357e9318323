//! Files in memory: bytes under names, and a place in them.

ghost use Rattle.std.specs.Option.{option_map};
ghost use Rattle.khe_io.specs.Named.{bytes_at, bytes_from, bytes_under, IsPlaceIn};
ghost use Rattle.std.specs.Prelude.{◌≡◌, ◌-◌, ◌<◌, ◌≤◌, ◌↔◌, [], ◌++◌, ◌+◌, length, take, drop, min, IfSome};

use khe_base::{Seq, Text};

/// Bytes under a name.
#[derive(Drop)]
pub struct Named {
    pub name: Text,
    pub bytes: Seq<u8>,
}

/// A place in one of several files: the file's number, and how many of its bytes stand before it.
#[derive(Clone, Copy)]
pub(crate) struct Place {
    pub(crate) file: usize,
    pub(crate) from: usize,
}

/// The number of the first file with this name. It looks at one file after another.
pub(crate) fn number_of(files: &[Named], name: &str) -> Option<usize>
    ensures first { option_map (bytes_at files.now) result ≡ bytes_under files.now name.now }
    ensures within { IfSome result (λ number. number < length files.now) }
{
    for (number, file) in files.iter().enumerate() {
        if file.name.as_str() == name {
            return Some(number);
        }
    }
    None
}

/// Copies the bytes from a place on into the front of a buffer: at most `most`, as many as fit and
/// as the file still has. It answers the place after them.
pub(crate) fn copy_from(files: &[Named], place: Place, most: usize, buf: &mut [u8]) -> Place
    requires place { IsPlaceIn files.now place }
    requires most { 1 ≤ most }
    requires buffer { 0 < length buf.old }

    ensures placed { IsPlaceIn files.now result }
    ensures file { result.file ≡ place.file }
    ensures from { result.from ≡ place.from + min (min (length (bytes_from files.now place)) (length buf.old)) most }
    ensures filled { buf.new ≡ take (result.from - place.from) (bytes_from files.now place) ++ drop (result.from - place.from) buf.old }
    ensures forward { place.from ≤ result.from }
    ensures within { result.from - place.from ≤ length buf.new }
    ensures copied { bytes_from files.now place ≡ take (result.from - place.from) buf.new ++ bytes_from files.now result }
    ensures end { (result.from - place.from ≡ 0) ↔ (bytes_from files.now place ≡ []) }
{
    let file = &files[place.file];
    let rest = &file.bytes.as_slice()[place.from..];
    let count = rest.len().min(buf.len()).min(most);
    buf[..count].copy_from_slice(&rest[..count]);
    Place {
        file: place.file,
        from: place.from + count,
    }
}
