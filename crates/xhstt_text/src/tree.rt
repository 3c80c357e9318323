//! The tree of the elements of a text, as a table with one row for each element.

ghost use Rattle.std.specs.Prelude.{◌≡◌, ℕ, Option};
ghost use Rattle.xhstt_text.specs.Machine.{closed_row};
ghost use Rattle.xhstt_text.specs.Packed.{with_loose};

use crate::packed::{PackedPlace, Place};
use khe_base::Seq;
use std::marker::Model;

/// A range of places: from the first up to, and without, the last.
#[derive(Clone, Copy)]
pub struct Span {
    pub from: u32,
    pub to: u32,
}

/// One element of a text, as it stands in its row.
#[derive(Clone, Copy)]
pub struct Node {
    /// The place of its `<`.
    pub at: u32,
    /// The bytes of its name.
    pub name: Span,
    /// The number after its last descendant.
    pub end: u32,
    /// The numbers of its attributes.
    pub attributes: Span,
    /// The bytes between its tags; empty, at the byte after the tag, for `<name/>`.
    pub value: Span,
    /// The place of the first byte of its direct text that is not white.
    pub loose: Option<u32>,
}

/// One element of a text as a table has it, in 32 bytes: what follows from the rest is left out. Contracts see the
/// element.
#[derive(Drop)]
pub struct Row {
    /// The place of its `<`. Its name begins after it.
    pub(crate) at: Place,
    /// The place after its name.
    pub(crate) name_to: u32,
    pub(crate) end: u32,
    pub(crate) attributes: Span,
    pub(crate) value: Span,
    pub(crate) loose: PackedPlace,
}

impl Model for Row {
    ghost use Rattle.std.specs.Prelude.{◌+◌};
    ghost use Rattle.xhstt_text.specs.declared.tree.Node.{Node};
    ghost use Rattle.xhstt_text.specs.declared.tree.Span.{Span};

    ghost Value = { Node };

    ghost view = { λ r. record { at = r.at; name = record { from = r.at + 1; to = r.name_to }; end = r.end; attributes = r.attributes; value = r.value; loose = r.loose } };
}

impl Row {
    /// The element. It takes constant time.
    pub fn node(&self) -> Node
        ensures { result ≡ self.now }
    {
        let at = self.at.get();
        Node {
            at,
            name: Span {
                from: at + 1,
                to: self.name_to,
            },
            end: self.end,
            attributes: self.attributes,
            value: self.value,
            loose: self.loose.number(),
        }
    }

    /// The same row once more.
    pub(crate) fn again(&self) -> Row
        ensures { result ≡ self.now }
    {
        Row {
            at: self.at,
            name_to: self.name_to,
            end: self.end,
            attributes: self.attributes,
            value: self.value,
            loose: self.loose.again(),
        }
    }

    /// Where its direct text begins, as far as it was read.
    pub(crate) fn loose(&self) -> Option<Place>
        ensures { result ≡ self.now.loose }
    {
        self.loose.get()
    }

    /// The row with another beginning of its direct text.
    pub(crate) fn with_loose(&self, loose: Option<Place>) -> Row
        ensures { result ≡ with_loose self.now loose }
    {
        Row {
            at: self.at,
            name_to: self.name_to,
            end: self.end,
            attributes: self.attributes,
            value: self.value,
            loose: PackedPlace::of(loose),
        }
    }

    /// The row of an element whose end tag begins at a place, where there are that many elements.
    pub(crate) fn closed(&self, at: u32, end: u32) -> Row
        ensures { result ≡ closed_row self.now at end }
    {
        Row {
            at: self.at,
            name_to: self.name_to,
            end,
            attributes: self.attributes,
            value: Span {
                from: self.value.from,
                to: at,
            },
            loose: self.loose.again(),
        }
    }
}

/// One attribute of an element, in 16 bytes. It begins where its name does.
#[derive(Clone, Copy)]
pub struct Attribute {
    /// The bytes of its name.
    pub name: Span,
    /// The bytes between its quotes.
    pub value: Span,
}

/// The elements of a text in document order, as one flat table over its bytes. An element's
/// number is its place in `nodes`.
#[derive(Drop)]
pub struct Tree<'a> {
    pub bytes: &'a [u8],
    pub nodes: Seq<Row>,
    pub attributes: Seq<Attribute>,
}
