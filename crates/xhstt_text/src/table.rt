//! The table of elements while a text is read: its rows, and the elements that are still open.

ghost use Rattle.std.specs.Prelude.{◌≡◌, ◌+◌, ◌<◌, ◌^◌, ◌++◌, ◌∷◌, [], length, set, IfOk, OnOk};
ghost use Rattle.xhstt_text.specs.Machine.{closed_row};
ghost use Rattle.xhstt_text.specs.Reading.{row_from};

use crate::packed::{PackedPlace, Place};
use crate::tree::{Attribute, Row, Span};
use khe_base::NoMemory;

/// An element whose end tag was not read yet.
#[derive(Drop)]
pub struct OpenElement<'a> {
    pub number: Place,
    pub name: &'a [u8],
    /// Its row, as far as it is known.
    pub node: Row,
}

/// A start tag whose attributes were read.
#[derive(Clone, Copy)]
pub struct StartTag<'a> {
    /// The place of its `<`.
    pub at: Place,
    pub name: &'a [u8],
    /// The place after its name.
    pub name_to: u32,
    /// The number of its first attribute.
    pub first: u32,
}

/// What was read so far: the rows, and the open elements, the innermost last.
#[derive(Drop)]
pub struct Table<'a> {
    pub nodes: Vec<Row>,
    pub attributes: Vec<Attribute>,
    pub stack: Vec<OpenElement<'a>>,
}

impl<'a> Table<'a> {
    /// Adds the row of an element whose content begins at a place, and is empty so far.
    pub fn add(&mut self, tag: &StartTag<'a>, from: u32) -> Result<Row, NoMemory>
        requires number { length self.old.nodes.items + 1 < 2 ^ 32 }
        requires few { length self.old.attributes.items < 2 ^ 32 }
        requires name { tag.now.name_to ≡ tag.now.at + 1 + length tag.now.name.now }
        ensures row { IfOk result (λ node. node ≡ row_from tag.now (length self.old.nodes.items) (length self.old.attributes.items) from) }
        ensures nodes { IfOk result (λ node. self.new.nodes.items ≡ self.old.nodes.items ++ node ∷ []) }
        ensures attributes { self.new.attributes.items ≡ self.old.attributes.items }
        ensures stack { self.new.stack.items ≡ self.old.stack.items }
    {
        let row = Row {
            at: tag.at,
            name_to: tag.name_to,
            end: self.nodes.len() as u32 + 1,
            attributes: Span {
                from: tag.first,
                to: self.attributes.len() as u32,
            },
            value: Span { from, to: from },
            loose: PackedPlace::of(None),
        };
        self.nodes.push(row.again())?;
        Ok(row)
    }

    /// Adds an element with content, which is open from now on.
    pub fn open(&mut self, tag: &StartTag<'a>, from: u32) -> Result<(), NoMemory>
        requires number { length self.old.nodes.items + 1 < 2 ^ 32 }
        requires few { length self.old.attributes.items < 2 ^ 32 }
        requires name { tag.now.name_to ≡ tag.now.at + 1 + length tag.now.name.now }
        ensures nodes { OnOk result (self.new.nodes.items ≡ self.old.nodes.items ++ row_from tag.now (length self.old.nodes.items) (length self.old.attributes.items) from ∷ []) }
        ensures attributes { self.new.attributes.items ≡ self.old.attributes.items }
        ensures stack { OnOk result (self.new.stack.items ≡ self.old.stack.items ++ record {
          number = length self.old.nodes.items;
          name = tag.now.name;
          node = row_from tag.now (length self.old.nodes.items) (length self.old.attributes.items) from;
        } ∷ []) }
    {
        let number = Place::of(self.nodes.len() as u32);
        let node = self.add(tag, from)?;
        self.stack.push(OpenElement {
            number,
            name: tag.name,
            node,
        })?;
        Ok(())
    }

    /// Completes the row of an element whose end tag begins at a place.
    pub fn close(&mut self, element: &OpenElement<'a>, at: u32)
        requires { length self.old.nodes.items < 2 ^ 32 }
        ensures nodes { self.new.nodes.items ≡ set self.old.nodes.items element.now.number (closed_row element.now.node at (length self.old.nodes.items)) }
        ensures attributes { self.new.attributes.items ≡ self.old.attributes.items }
        ensures stack { self.new.stack.items ≡ self.old.stack.items }
    {
        let end = self.nodes.len() as u32;
        let number = element.number.get() as usize;
        if let Some(row) = self.nodes.get_mut(number) {
            *row = element.node.closed(at, end);
        }
    }
}
