//! Handles on the elements of a tree, and the walk over the children of one.

ghost use Rattle.std.specs.Prelude.{◌≡◌, ◌<◌, ◌↔◌, IsTrue, length, MatchOption, OnSome, IfSome};
ghost use Rattle.std.specs.Str.{bytes_eq};
ghost use Rattle.xhstt_text.specs.Forest.{empty, node};
ghost use Rattle.xhstt_text.specs.FlatTable.{flat_table, node_at, IsFlatTable, IsTable, root_forest};

use crate::attributes::{Attributes, piece_of};
use crate::tree::{Node, Tree};
use std::marker::Model;

/// A handle on one element of a tree. Contracts see what the element says of itself, and the
/// forest of its children.
#[derive(Drop)]
pub struct Element<'t, 'a> {
    tree: &'t Tree<'a>,
    number: u32,
}

impl<'t, 'a> Model for Element<'t, 'a> {
    ghost use Rattle.std.specs.Prelude.{◌<◌, length};
    ghost use Rattle.xhstt_text.specs.FlatTable.{flat_table, IsFlatTable};
    ghost use Rattle.xhstt_text.specs.Handles.{Standing, standing_code, standing_at};

    ghost Value = { Standing };

    ghost coded = { standing_code };

    ghost view = { λ e. standing_at (flat_table e.tree.now) e.number };

    ghost invariant = { λ e. IsFlatTable (flat_table e.tree.now) × (e.number < length e.tree.now.nodes) };
}

/// The elements of a row that are still to come: those of the children of one element, in the order
/// of the text. Contracts see their forest.
#[derive(Drop)]
pub struct Children<'t, 'a> {
    tree: &'t Tree<'a>,
    at: u32,
    to: u32,
}

impl<'t, 'a> Model for Children<'t, 'a> {
    ghost use Rattle.xhstt_text.specs.Forest.{Forest};
    ghost use Rattle.xhstt_text.specs.FlatTable.{flat_table, forest};
    ghost use Rattle.xhstt_text.specs.Handles.{forest_code, IsRow};

    ghost Value = { Forest };

    ghost coded = { forest_code };

    ghost view = { λ c. forest (flat_table c.tree.now) c.at c.to };

    ghost invariant = { λ c. IsRow (flat_table c.tree.now) c.at c.to };
}

/// The row of an element by its number.
fn node_of(tree: &Tree<'_>, number: u32) -> Node
    requires { number < length tree.now.nodes }
    ensures { result ≡ node_at (flat_table tree.now) number }
{
    tree.nodes.as_slice()[number as usize].node()
}

impl<'a> Tree<'a> {
    /// The outermost element. It takes constant time.
    pub fn root<'t>(&'t self) -> Element<'t, 'a>
        requires { IsTable self.now }
        ensures { root_forest self.now ≡ node result.info result.kids empty }
    {
        Element {
            tree: self,
            number: 0,
        }
    }
}

impl<'t, 'a> Element<'t, 'a> {
    /// The same handle once more. It takes constant time.
    pub fn again(&self) -> Element<'t, 'a>
        ensures { result ≡ self.now }
    {
        Element {
            tree: self.tree,
            number: self.number,
        }
    }

    /// The place of its `<`. It takes constant time.
    pub fn at(&self) -> u64
        ensures { result ≡ self.now.info.at }
    {
        u64::from(node_of(self.tree, self.number).at)
    }

    /// The bytes of its name. It takes constant time.
    pub fn name(&self) -> &'a [u8]
        ensures { result.now ≡ self.now.info.name }
    {
        let span = node_of(self.tree, self.number).name;
        piece_of(self.tree.bytes, span)
    }

    /// Whether it has this name. It takes time in the length of the name.
    pub fn is_named(&self, name: &[u8]) -> bool
        ensures value { result ≡ bytes_eq name.now self.now.info.name }
        ensures named { IsTrue result ↔ (self.now.info.name ≡ name.now) }
    {
        name == self.name()
    }

    /// The bytes between its tags where it has no children, as they are spelled; none where it
    /// has children. It takes constant time.
    pub fn value(&self) -> &'a [u8]
        ensures { result.now ≡ self.now.info.value }
    {
        let row = node_of(self.tree, self.number);
        if self.number + 1 < row.end {
            b""
        } else {
            piece_of(self.tree.bytes, row.value)
        }
    }

    /// The place after its start tag. It takes constant time.
    pub fn value_at(&self) -> u64
        ensures { result ≡ self.now.info.value_at }
    {
        u64::from(node_of(self.tree, self.number).value.from)
    }

    /// The place of the first byte of its direct text that is not white; `None` where all of it
    /// is white. It takes constant time.
    pub fn loose(&self) -> Option<u64>
        ensures { result ≡ self.now.info.loose }
    {
        let place = node_of(self.tree, self.number).loose?;
        Some(u64::from(place))
    }

    /// Its children. It takes constant time.
    pub fn children(&self) -> Children<'t, 'a>
        ensures { result ≡ self.now.kids }
    {
        let row = node_of(self.tree, self.number);
        Children {
            tree: self.tree,
            at: self.number + 1,
            to: row.end,
        }
    }

    /// Its attributes. It takes constant time.
    pub fn attributes(&self) -> Attributes<'t, 'a>
        ensures { result ≡ self.now.info.attributes }
    {
        let span = node_of(self.tree, self.number).attributes;
        let all = self.tree.attributes.as_slice();
        Attributes::of(self.tree.bytes, &all[span.from as usize..span.to as usize])
    }
}

impl<'t, 'a> Children<'t, 'a> {
    ghost use Rattle.xhstt_text.specs.Handles.{size};

    /// Whether no element is left. It takes constant time.
    pub fn is_empty(&self) -> bool
        ensures { IsTrue result ↔ (self.now ≡ empty) }
    {
        self.at == self.to
    }

    /// Takes the next element; `None` where none is left. It takes constant time.
    pub fn next(&mut self) -> Option<Element<'t, 'a>>
        ensures value { MatchOption result ((self.old ≡ empty) × (self.new ≡ empty)) (λ e. self.old ≡ node e.info e.kids self.new) }
        ensures shorter { OnSome result (size self.new < size self.old) }
        ensures lower { IfSome result (λ e. size e.kids < size self.old) }
    {
        if self.at == self.to {
            return None;
        }
        let element = Element {
            tree: self.tree,
            number: self.at,
        };
        self.at = node_of(self.tree, self.at).end;
        Some(element)
    }
}
