//! The attributes of an element, one after another.

ghost use Rattle.std.specs.Prelude.{◌≡◌, ◌<◌, ◌∷◌, [], length, MatchOption, OnSome, All, map};

use crate::tree::{Attribute, Span};
use std::marker::Model;

/// One attribute of an element, with the places of its parts.
#[derive(Clone, Copy)]
pub struct AttributeText<'a> {
    /// The place of the first byte of its name.
    pub name_at: u64,
    /// The bytes of its name.
    pub name: &'a [u8],
    /// The place after its opening quote.
    pub value_at: u64,
    /// The bytes between its quotes.
    pub value: &'a [u8],
}

/// The attributes of one element that are still to come, in the order of the text.
/// Contracts see their list.
#[derive(Drop)]
pub struct Attributes<'t, 'a> {
    bytes: &'a [u8],
    rest: &'t [Attribute],
}

impl<'t, 'a> Model for Attributes<'t, 'a> {
    ghost use Rattle.std.specs.Prelude.{List, map, All};
    ghost use Rattle.std.specs.Coded.{coded_list};
    ghost use Rattle.xhstt_text.specs.Forest.{AttributeInfo};
    ghost use Rattle.xhstt_text.specs.FlatTable.{attribute_info, IsAttributeOf};

    ghost Value = { List AttributeInfo };

    ghost view = { λ a. map (attribute_info a.bytes.now) a.rest.now };

    ghost invariant = { λ a. All (IsAttributeOf a.bytes.now) a.rest.now };
}

impl<'t, 'a> Attributes<'t, 'a> {
    ghost use Rattle.xhstt_text.specs.FlatTable.{attribute_info, IsAttributeOf};
    ghost use Rattle.xhstt_text.specs.Handles.{attribute_of};

    /// A handle on these attributes of a text.
    pub(crate) fn of(bytes: &'a [u8], rest: &'t [Attribute]) -> Attributes<'t, 'a>
        requires { All (IsAttributeOf bytes.now) rest.now }
        ensures { result ≡ map (attribute_info bytes.now) rest.now }
    {
        Attributes { bytes, rest }
    }

    /// How many attributes are still to come. It takes constant time.
    pub fn len(&self) -> usize
        ensures { result ≡ length self.now }
    {
        self.rest.len()
    }

    /// Takes the next attribute; `None` where none is left. It takes constant time.
    pub fn next(&mut self) -> Option<AttributeText<'a>>
        ensures value { MatchOption result ((self.old ≡ []) × (self.new ≡ [])) (λ a. self.old ≡ attribute_of a ∷ self.new) }
        ensures shorter { OnSome result (length self.new < length self.old) }
    {
        match self.rest {
            [] => None,
            [first, rest @ ..] => {
                let attribute = AttributeText {
                    name_at: u64::from(first.name.from),
                    name: piece_of(self.bytes, first.name),
                    value_at: u64::from(first.value.from),
                    value: piece_of(self.bytes, first.value),
                };
                self.rest = rest;
                Some(attribute)
            }
        }
    }
}

ghost use Rattle.xhstt_text.specs.FlatTable.{IsWithin, piece};

/// The bytes of a span.
pub(crate) fn piece_of<'a>(bytes: &'a [u8], span: Span) -> &'a [u8]
    requires { IsWithin (length bytes.now) span }
    ensures { result.now ≡ piece bytes.now span }
{
    &bytes[span.from as usize..span.to as usize]
}
