//! The text of an XHSTT archive: from bytes to the tree of its elements.
#![tactic(auto)]

mod attributes;
mod bytes;
mod comments;
mod cursor;
mod escaping;
mod faults;
mod handles;
mod names;
mod packed;
mod prolog;
mod reader;
mod references;
mod table;
mod tags;
mod tree;
mod unescaping;

pub use attributes::{AttributeText, Attributes};
pub use escaping::escape;
pub use faults::TextFault;
pub use handles::{Children, Element};
pub use reader::elements;
pub use tree::{Attribute, Node, Row, Span, Tree};
pub use unescaping::{as_it_stands, plain, text_or_empty, unescape};
