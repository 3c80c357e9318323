//! Texts, resources and entries as they are kept: places among the letters of all.

ghost use Rattle.std.specs.Prelude.{◌≡◌, IfOk};
ghost use Rattle.khe_base.specs.Text.{characters};
ghost use Rattle.xhstt_shape.specs.Packed.{IsLonger, IsTextIn, text_at};

use khe_base::NoMemory;

/// A text among the letters of many.
#[derive(Clone, Copy)]
pub(crate) struct PackedText {
    /// The place of its first byte.
    pub first: u32,
    /// How many bytes it has.
    pub count: u32,
}

/// A reference or a role.
#[derive(Clone, Copy)]
pub(crate) struct PackedName {
    pub text: PackedText,
    /// Its place in the archive.
    pub at: u32,
}

/// A resource that an entry gives.
#[derive(Clone, Copy)]
pub(crate) struct PackedGiven {
    pub reference: PackedName,
    pub role: Option<PackedName>,
}

/// An entry.
#[derive(Clone, Copy)]
pub(crate) struct PackedEntry {
    pub reference: PackedName,
    pub duration: Option<u32>,
    pub time: Option<PackedName>,
    /// The place of its first resource among those of all entries.
    pub first: u32,
    /// How many resources it gives.
    pub count: u32,
}

/// A place, or a number of letters or of rows, in 32 bits. No archive is so long that it does not fit: then it is
/// as if memory were refused.
pub(crate) fn fitting(number: u64) -> Result<u32, NoMemory>
    ensures { IfOk result (λ n. n ≡ number) }
{
    match u32::try_from(number) {
        Ok(number) => Ok(number),
        Err(_) => Err(NoMemory),
    }
}

/// Adds a text to the letters.
pub(crate) fn pack_text(letters: &mut Vec<u8>, text: &str) -> Result<PackedText, NoMemory>
    ensures longer { IsLonger letters.old.items letters.new.items }
    ensures inside { IfOk result (IsTextIn letters.new.items) }
    ensures text { IfOk result (λ t. text_at letters.new.items t ≡ characters text.now) }
{
    let first = fitting(letters.len() as u64)?;
    let count = fitting(text.len() as u64)?;
    letters.extend_from_slice(text.as_bytes())?;
    Ok(PackedText { first, count })
}

/// The text at a place.
pub(crate) fn text_of(letters: &[u8], text: PackedText) -> &str
    requires { IsTextIn letters.now text }
    ensures { characters result.now ≡ text_at letters.now text }
{
    let first = text.first as usize;
    let bytes = &letters[first..first + text.count as usize];
    unsafe { str::from_utf8_unchecked(bytes) }
}
