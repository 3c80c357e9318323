//! Bytes in memory as an output.

ghost use Rattle.std.specs.Prelude.{◌≡◌, ◌++◌, false};

use crate::output::Output;

/// Bytes in memory, until memory is refused.
#[derive(Drop)]
pub(crate) struct Buffer {
    pub(crate) bytes: Vec<u8>,
    pub(crate) refused: bool,
}

impl Output for Buffer {
    ghost use Rattle.std.specs.Prelude.{◌≡◌, ◌++◌, false};

    ghost said = { λ b rest whole. b.refused ≡ false → b.bytes.items ++ rest ≡ whole.bytes };

    fn put(&mut self, bytes: &[u8]) {
        if !self.refused && self.bytes.extend_from_slice(bytes).is_err() {
            self.refused = true;
        }
    }
}
