//! Texts that are read as trees.

use std::alloc::Global;
use xhstt_text::{Attribute, Node, Row, Span, Tree, elements};

const TEXT: &[u8] = b"<a b=\"c\"><d/>x<e>yy</e></a>";

/// The rows of the text's elements.
const ROWS: &[Node] = &[
    Node {
        at: 0,
        name: Span { from: 1, to: 2 },
        end: 3,
        attributes: Span { from: 0, to: 1 },
        value: Span { from: 9, to: 23 },
        loose: Some(13),
    },
    Node {
        at: 9,
        name: Span { from: 10, to: 11 },
        end: 2,
        attributes: Span { from: 1, to: 1 },
        value: Span { from: 13, to: 13 },
        loose: None,
    },
    Node {
        at: 14,
        name: Span { from: 15, to: 16 },
        end: 3,
        attributes: Span { from: 1, to: 1 },
        value: Span { from: 17, to: 19 },
        loose: Some(17),
    },
];

fn is_span(found: Span, span: Span) -> bool {
    found.from == span.from && found.to == span.to
}

fn is_row(found: &Node, row: &Node) -> bool {
    found.at == row.at
        && is_span(found.name, row.name)
        && found.end == row.end
        && is_span(found.attributes, row.attributes)
        && is_span(found.value, row.value)
        && found.loose == row.loose
}

fn are_rows(found: &[Row], rows: &[Node]) -> bool {
    for (found, row) in found.iter().zip(rows) {
        if !is_row(&found.node(), row) {
            return false;
        }
    }
    found.len() == rows.len()
}

/// Whether the only attribute is that of the text.
fn is_the_attribute(found: &[Attribute]) -> bool {
    match found {
        [attribute] => {
            is_span(attribute.name, Span { from: 3, to: 4 })
                && is_span(attribute.value, Span { from: 6, to: 7 })
        }
        _ => false,
    }
}

/// Whether a tree has these rows, and the only attribute of the text.
fn is_the_tree(tree: &Tree<'_>, rows: &[Node]) -> bool {
    are_rows(tree.nodes.as_slice(), rows) && is_the_attribute(tree.attributes.as_slice())
}

#[test]
fn reads_each_row(rt: HostRuntime) {
    let is_read = match elements(rt.alloc(), TEXT) {
        Ok(tree) => is_the_tree(&tree, ROWS),
        Err(_) => false,
    };
    assert!(rt; is_read);
}

/// Texts of the grammar.
const READ: &[&str] = &[
    "<a/>",
    " \t\r\n<a >\n</a >\n",
    "<_.-9 a = '\"' b=\"'>\" />",
    "<a>x<b/>y<b>z</b></a>",
    "<?xml version='1.0'?>\n<!-- - -->\n<a>é<!--<b>--></a><!---->",
    "\u{feff}<?xml ??><a/>",
    "<a x='&lt;&#65;\u{fffd}'>&gt;&amp;&apos;&quot;</a>",
    "<a>&#0000000009;&#xd;&#x10FFFF;\u{f000}</a>",
];

/// Whether a text, which is shorter than 4096 bytes, is read.
fn is_read(alloc: Global, text: &str) -> bool {
    let bytes = text.as_bytes();
    bytes.len() < 4096 && elements(alloc, bytes).is_ok()
}

#[test]
fn reads_texts(rt: HostRuntime) {
    for text in READ {
        assert!(rt; is_read(rt.alloc(), text));
    }
}
