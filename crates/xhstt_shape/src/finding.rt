//! The first child or attribute of a name.

ghost use Rattle.std.specs.Prelude.{◌≡◌, ◌∷◌, IfSome, IfNone, IsTrue, MatchOption, is_some, None, Some};
ghost use Rattle.xhstt_shape.specs.Walk as spec;
ghost use Rattle.xhstt_text.specs.Handles.{attribute_of};
ghost use Rattle.std.specs.Option.{option_map};

use crate::words::{Label, Tag, is_word};
use xhstt_text::{AttributeText, Element};

/// The first child of an element with this name. It takes time linear in the number of children.
pub(crate) fn child<'t, 'a>(tag: Tag, element: &Element<'t, 'a>) -> Option<Element<'t, 'a>>
    ensures { result ≡ spec.child tag element.now.kids }
{
    let word = tag.word();
    let mut rest = element.children();
    while let Some(next) = rest.next() {
        if is_word(word, next.name()) {
            return Some(next);
        }
    }
    None
}

/// The first attribute of an element with this name. It takes time linear in the number of
/// attributes.
pub(crate) fn attribute<'a>(label: Label, element: &Element<'_, 'a>) -> Option<AttributeText<'a>>
    ensures { option_map attribute_of result ≡ spec.attribute label element.now.info.attributes }
{
    let word = label.word();
    let mut rest = element.attributes();
    while let Some(next) = rest.next() {
        if is_word(word, next.name) {
            return Some(next);
        }
    }
    None
}
