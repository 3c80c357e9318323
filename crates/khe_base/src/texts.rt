//! Texts, which contracts see as the list of their characters.

ghost use Rattle.std.specs.Prelude.{◌≡◌, ◌++◌, ◌∷◌, [], OnOk, OnErr, IfOk, IsTrue, encode_utf8_all, decimal};
ghost use Rattle.std.specs.Str.{bytes_eq};
ghost use Rattle.khe_base.specs.Text.{characters, text_of, is_ascii};

use crate::NoMemory;
use itoa::Buffer;
use std::alloc::Global;
use std::marker::Model;

/// A text. Contracts see the list of its characters.
#[derive(Debug, Drop)]
pub struct Text {
    pub items: String,
}

impl Model for Text {
    ghost use Rattle.std.specs.Prelude.{List, ℕ, string_bytes};
    ghost use Rattle.khe_base.specs.Text.{characters};

    ghost Value = { List ℕ };

    ghost view = { λ t. characters (string_bytes t.items) };
}

impl Text {
    /// The empty text. It takes no memory.
    pub fn new(alloc: Global) -> Text
        ensures { result ≡ [] }
    {
        Text {
            items: String::new(alloc),
        }
    }

    /// A copy of a text.
    pub fn from_str(alloc: Global, text: &str) -> Result<Text, NoMemory>
        ensures { IfOk result (λ t. t ≡ characters text.now) }
    {
        Ok(Text {
            items: String::from_str(alloc, text)?,
        })
    }

    /// A copy of the text that these bytes spell, or `None` where they are not UTF-8. It takes
    /// time and memory in proportion to the bytes.
    pub fn from_utf8(alloc: Global, bytes: &[u8]) -> Result<Option<Text>, NoMemory>
        ensures { IfOk result (λ t. t ≡ text_of bytes.now) }
    {
        match str::from_utf8(bytes) {
            Ok(text) => Ok(Some(Text::from_str(alloc, text)?)),
            Err(_) => Ok(None),
        }
    }

    /// A copy of this text. It takes time and memory in proportion to the
    /// text.
    pub fn copy(&self, alloc: Global) -> Result<Text, NoMemory>
        ensures { IfOk result (λ t. t ≡ self.now) }
    {
        Ok(Text {
            items: String::from_str(alloc, self.items.as_str())?,
        })
    }

    /// Its bytes in UTF-8. It takes constant time.
    pub fn as_str(&self) -> &str
        ensures { result.now ≡ encode_utf8_all self.now }
    {
        self.items.as_str()
    }

    /// Its bytes in UTF-8, as `as_str` gives them; the contract says which characters they spell. It takes
    /// constant time.
    pub fn spelling(&self) -> &str
        ensures { characters result.now ≡ self.now }
    {
        self.items.as_str()
    }

    /// Its bytes in UTF-8, as a list of bytes. It takes constant time.
    pub fn as_bytes(&self) -> &[u8]
        ensures { result.now ≡ encode_utf8_all self.now }
    {
        self.items.as_bytes()
    }

    /// Whether the two texts have the same characters in the same order. It takes at most time in
    /// proportion to the shorter one, and no memory.
    pub fn is_same(&self, other: &Text) -> bool
        ensures { result ≡ bytes_eq self.now other.now }
    {
        self.items.as_str() == other.items.as_str()
    }

    /// Whether it has the characters that these bytes spell. It takes at most time in proportion to the shorter of
    /// the two, and no memory.
    pub fn is_spelled(&self, spelling: &str) -> bool
        ensures by { result ≡ bytes_eq (characters spelling.now) self.now }
        ensures is { result ≡ bytes_eq self.now (characters spelling.now) }
    {
        spelling == self.items.as_str()
    }

    /// Adds a text at the end. Where memory is refused, the text stays as it was.
    pub fn push_str(&mut self, text: &str) -> Result<(), NoMemory>
        ensures ok { OnOk result (self.new ≡ self.old ++ characters text.now) }
        ensures err { OnErr result (self.new ≡ self.old) }
    {
        self.items.push_str(text)?;
        Ok(())
    }

    /// Adds one character at the end. Where memory is refused, the text stays as it was.
    pub fn push(&mut self, character: char) -> Result<(), NoMemory>
        ensures ok { OnOk result (self.new ≡ self.old ++ character ∷ []) }
        ensures err { OnErr result (self.new ≡ self.old) }
    {
        self.items.push(character)?;
        Ok(())
    }

    /// Adds a text of ASCII at the end, whose bytes are its characters. Where memory is refused,
    /// the text stays as it was.
    pub fn push_literal(&mut self, text: &str) -> Result<(), NoMemory>
        requires { IsTrue (is_ascii text.now) }
        ensures ok { OnOk result (self.new ≡ self.old ++ text.now) }
        ensures err { OnErr result (self.new ≡ self.old) }
    {
        self.push_str(text)
    }

    /// Adds another text at the end. Where memory is refused, the text stays as it was.
    pub fn push_text(&mut self, other: &Text) -> Result<(), NoMemory>
        ensures ok { OnOk result (self.new ≡ self.old ++ other.now) }
        ensures err { OnErr result (self.new ≡ self.old) }
    {
        let text = other.items.as_str();
        self.push_str(text)
    }

    /// Adds a number in decimal digits at the end, with no leading zero. Where memory is refused, the text
    /// stays as it was. Numbers of at most 64 bits, which are nearly all, take a faster path.
    pub fn push_number(&mut self, number: u128) -> Result<(), NoMemory>
        ensures ok { OnOk result (self.new ≡ self.old ++ decimal number) }
        ensures err { OnErr result (self.new ≡ self.old) }
    {
        let mut digits = Buffer::new();
        if number > u128::from(u64::MAX) {
            return self.push_str(digits.format(number));
        }
        self.push_str(digits.format(number as u64))
    }
}
