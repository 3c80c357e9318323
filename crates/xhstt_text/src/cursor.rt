//! A place in a text that is read.

ghost use Rattle.std.specs.Prelude.{◌≡◌, ◌+◌, ◌^◌, ◌<◌, length};

/// A place in a text, and the bytes from there on.
#[derive(Clone, Copy)]
pub struct Cursor<'a> {
    pub at: u32,
    pub rest: &'a [u8],
    ghost within: { at + length rest.now < 2 ^ 32 },
}
