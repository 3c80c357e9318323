//! Writing tags, attributes and the line breaks between them.

ghost use Rattle.std.specs.Prelude.{◌≡◌, ◌++◌, ◌∷◌, [], ℕ, List, true, false, Option, decimal, length, ◌<◌, IfSome};
ghost use Rattle.std.specs.Option.{option_map};
ghost use Rattle.khe_base.specs.Text.{characters};
ghost use Rattle.xhstt_shape.specs.Views.{seen_reference, seen_role};
ghost use Rattle.xhstt_shape.specs.Words.{word, label_word};
ghost use Rattle.xhstt_writer.specs.Trees.{none, filled, between, closed, leaf_end, attribute_spelled, attributes_spelled, value_bytes};
ghost use Rattle.xhstt_writer.specs.Parts as parts;
ghost use Rattle.xhstt_writer.specs.Output.{Aim, Puts, Writes};

use crate::output::Output;
use crate::texts::put_spelled;
use itoa::Buffer;
use khe_base::Text;
use xhstt_shape::{Label, Name, NameView, Ref, Tag};

/// The beginning of a start tag in one piece, of the elements that an archive has most of: each piece
/// that is put by itself costs a look at the memory that is left.
#[tactic(auto, unfolding(xhstt_shape::specs::Words::word))]
fn opening(tag: Tag) -> Option<&'static [u8]>
    ensures { IfSome result (λ piece. piece.now ≡ 60 ∷ word tag) }
{
    match tag {
        Tag::Resource => Some(b"<Resource"),
        Tag::Role => Some(b"<Role"),
        Tag::Duration => Some(b"<Duration"),
        Tag::Event => Some(b"<Event"),
        Tag::Resources => Some(b"<Resources"),
        Tag::Time => Some(b"<Time"),
        Tag::EventGroup => Some(b"<EventGroup"),
        Tag::ResourceType => Some(b"<ResourceType"),
        _ => None,
    }
}

/// An end tag and a line feed in one piece, likewise.
#[tactic(auto, unfolding(xhstt_shape::specs::Words::word))]
fn closing(tag: Tag) -> Option<&'static [u8]>
    ensures { IfSome result (λ piece. piece.now ≡ 60 ∷ 47 ∷ (word tag ++ (62 ∷ 10 ∷ []))) }
{
    match tag {
        Tag::Resource => Some(b"</Resource>\n"),
        Tag::Role => Some(b"</Role>\n"),
        Tag::Duration => Some(b"</Duration>\n"),
        Tag::Event => Some(b"</Event>\n"),
        Tag::Resources => Some(b"</Resources>\n"),
        _ => None,
    }
}

/// Writes the beginning of a start tag.
fn put_opening<O: Output>(out: &mut O, tag: Tag)
    ensures { (rest : List ℕ) (whole : Aim) → O.said out.old (60 ∷ (word tag ++ rest)) whole → O.said out.new rest whole }
{
    match opening(tag) {
        Some(piece) => out.put(piece),
        None => {
            out.put(b"<");
            out.put(tag.word());
        }
    }
}

/// Begins a start tag, and ends that of the element around before it, where it is open.
pub(crate) fn begin<O: Output>(out: &mut O, opened: bool, tag: Tag)
    ensures { (rest : List ℕ) (whole : Aim) → O.said out.old (between opened (60 ∷ (word tag ++ rest))) whole → O.said out.new rest whole }
{
    if opened {
        out.put(b">\n");
    }
    put_opening(out, tag);
}

/// What stands before an attribute's value: a space, the name, `=` and a quote, in one piece.
#[tactic(auto, unfolding(xhstt_shape::specs::Words::label_word))]
fn before_value(label: Label) -> &'static [u8]
    ensures { result.now ≡ 32 ∷ (label_word label ++ (61 ∷ 34 ∷ [])) }
{
    match label {
        Label::Id => b" Id=\"",
        Label::Reference => b" Reference=\"",
        Label::Color => b" Color=\"",
    }
}

/// Writes an attribute up to its last quote.
fn unquoted<O: Output>(out: &mut O, label: Label, text: &str)
    ensures { (rest : List ℕ) (whole : Aim) → O.said out.old (32 ∷ (label_word label ++ (61 ∷ 34 ∷ (value_bytes (characters text.now) ++ rest)))) whole → O.said out.new rest whole }
{
    out.put(before_value(label));
    put_spelled(out, text);
}

/// Writes an attribute.
pub(crate) fn attribute<O: Output>(out: &mut O, label: Label, text: &Text)
    ensures { (rest : List ℕ) (whole : Aim) → O.said out.old (attribute_spelled label text.now rest) whole → O.said out.new rest whole }
{
    spelled_attribute(out, label, text.spelling());
}

/// Writes an attribute whose text is the one that bytes spell.
pub(crate) fn spelled_attribute<O: Output>(out: &mut O, label: Label, text: &str)
    ensures { (rest : List ℕ) (whole : Aim) → O.said out.old (attribute_spelled label (characters text.now) rest) whole → O.said out.new rest whole }
{
    unquoted(out, label, text);
    out.put(b"\"");
}

/// Writes an attribute, where it is there.
pub(crate) fn attribute_if<O: Output>(out: &mut O, label: Label, text: &Option<Text>)
    ensures { (rest : List ℕ) (whole : Aim) → O.said out.old (attributes_spelled (parts.label_if label text.now) rest) whole → O.said out.new rest whole }
{
    if let Some(text) = text {
        attribute(out, label, text);
    }
}

/// Ends an element after its children.
pub(crate) fn end<O: Output>(out: &mut O, opened: bool, tag: Tag)
    ensures { (rest : List ℕ) (whole : Aim) → O.said out.old (filled none opened tag rest) whole → O.said out.new rest whole }
{
    if opened {
        out.put(b"/>\n");
    } else {
        close(out, tag);
    }
}

/// Writes an end tag.
fn close<O: Output>(out: &mut O, tag: Tag)
    ensures { (rest : List ℕ) (whole : Aim) → O.said out.old (closed tag rest) whole → O.said out.new rest whole }
{
    match closing(tag) {
        Some(piece) => out.put(piece),
        None => {
            out.put(b"</");
            out.put(tag.word());
            out.put(b">\n");
        }
    }
}

/// Whether a text has no character.
fn is_empty(text: &Text) -> bool
    ensures yes { result ≡ true → text.now ≡ [] }
    ensures no { result ≡ false → 0 < length text.now }
{
    is_blank(text.spelling())
}

/// Whether bytes spell no character.
fn is_blank(text: &str) -> bool
    ensures yes { result ≡ true → characters text.now ≡ [] }
    ensures no { result ≡ false → 0 < length (characters text.now) }
{
    text.is_empty()
}

/// Writes the end of an element with a text.
fn end_leaf<O: Output>(out: &mut O, tag: Tag, text: &str)
    ensures { (rest : List ℕ) (whole : Aim) → O.said out.old (leaf_end tag (characters text.now) rest) whole → O.said out.new rest whole }
{
    if is_blank(text) {
        out.put(b"/>\n");
    } else {
        out.put(b">");
        put_spelled(out, text);
        close(out, tag);
    }
}

/// Writes a text.
pub(crate) fn leaf<O: Output>(out: &mut O, opened: bool, tag: Tag, text: &Text)
    ensures { Writes (O.said out.old) opened (O.said out.new) false (parts.one tag (parts.text text.now)) }
{
    spelled_leaf(out, opened, tag, text.spelling());
}

/// Writes the text that bytes spell.
#[tactic(auto, unfolding(crate::specs::Parts::put_all))]
pub(crate) fn spelled_leaf<O: Output>(out: &mut O, opened: bool, tag: Tag, text: &str)
    ensures { Writes (O.said out.old) opened (O.said out.new) false (parts.one tag (parts.text (characters text.now))) }
{
    begin(out, opened, tag);
    end_leaf(out, tag, text);
}

/// Writes a text, where it is there.
#[tactic(auto, unfolding(crate::specs::Parts::put_all))]
pub(crate) fn leaf_if<O: Output>(out: &mut O, opened: bool, tag: Tag, text: &Option<Text>) -> bool
    ensures { Writes (O.said out.old) opened (O.said out.new) result (parts.if_some tag parts.text text.now) }
{
    match text {
        Some(text) => {
            leaf(out, opened, tag, text);
            false
        }
        None => opened,
    }
}

/// Writes a name, where it is not empty.
#[tactic(auto, unfolding(crate::specs::Parts::put_all))]
pub(crate) fn name<O: Output>(out: &mut O, opened: bool, text: &Text) -> bool
    ensures { Writes (O.said out.old) opened (O.said out.new) result (parts.name_part text.now) }
{
    if is_empty(text) {
        opened
    } else {
        leaf(out, opened, Tag::Name, text);
        false
    }
}

/// Writes an element with bytes that are written as themselves.
pub(crate) fn plain<O: Output>(out: &mut O, opened: bool, tag: Tag, bytes: &[u8])
    ensures { (rest : List ℕ) (whole : Aim) → O.said out.old (between opened (60 ∷ (word tag ++ (62 ∷ (bytes.now ++ closed tag rest))))) whole → O.said out.new rest whole }
{
    begin(out, opened, tag);
    out.put(b">");
    out.put(bytes);
    close(out, tag);
}

/// Writes a number.
#[tactic(auto, unfolding(crate::specs::Parts::put_all))]
pub(crate) fn number<O: Output>(out: &mut O, opened: bool, tag: Tag, number: u32)
    ensures { Writes (O.said out.old) opened (O.said out.new) false (parts.one tag (parts.number number)) }
{
    begin(out, opened, tag);
    out.put(b">");
    put_number(out, number);
    close(out, tag);
}

/// Writes a number, where it is there.
#[tactic(auto, unfolding(crate::specs::Parts::put_all))]
pub(crate) fn number_if<O: Output>(out: &mut O, opened: bool, tag: Tag, given: Option<u32>) -> bool
    ensures { Writes (O.said out.old) opened (O.said out.new) result (parts.if_some tag parts.number given) }
{
    match given {
        Some(found) => {
            number(out, opened, tag, found);
            false
        }
        None => opened,
    }
}

/// Writes the digits of a number.
fn put_number<O: Output>(out: &mut O, number: u32)
    ensures { Puts (O.said out.old) (O.said out.new) (decimal number) }
{
    let mut digits = Buffer::new();
    out.put(digits.format(number).as_bytes());
}

/// Writes a reference.
#[tactic(auto, unfolding(crate::specs::Parts::put_all))]
pub(crate) fn reference<O: Output>(out: &mut O, opened: bool, tag: Tag, reference: &Ref)
    ensures { Writes (O.said out.old) opened (O.said out.new) false (parts.one tag (parts.reference reference.now)) }
{
    begin(out, opened, tag);
    unquoted(out, Label::Reference, reference.id.spelling());
    out.put(b"\"/>\n");
}

/// Writes a reference, where it is there.
#[tactic(auto, unfolding(crate::specs::Parts::put_all))]
pub(crate) fn reference_if<O: Output>(
    out: &mut O,
    opened: bool,
    tag: Tag,
    given: &Option<Ref>,
) -> bool
    ensures { Writes (O.said out.old) opened (O.said out.new) result (parts.if_some tag parts.reference given.now) }
{
    match given {
        Some(found) => {
            reference(out, opened, tag, found);
            false
        }
        None => opened,
    }
}

/// Writes a role, where it is there.
#[tactic(auto, unfolding(crate::specs::Parts::put_all))]
pub(crate) fn role_if<O: Output>(out: &mut O, opened: bool, given: &Option<Name>) -> bool
    ensures { Writes (O.said out.old) opened (O.said out.new) result (parts.if_some Tag.Role parts.role given.now) }
{
    match given {
        Some(found) => {
            leaf(out, opened, Tag::Role, &found.text);
            false
        }
        None => opened,
    }
}

/// Writes a reference as an entry keeps it.
#[tactic(auto, unfolding(crate::specs::Parts::put_all))]
fn kept_reference<O: Output>(out: &mut O, opened: bool, tag: Tag, kept: NameView<'_>)
    ensures { Writes (O.said out.old) opened (O.said out.new) false (parts.one tag (parts.reference (seen_reference kept.entry))) }
{
    begin(out, opened, tag);
    unquoted(out, Label::Reference, kept.text);
    out.put(b"\"/>\n");
}

/// Writes a reference as an entry keeps it, where it is there.
#[tactic(auto, unfolding(crate::specs::Parts::put_all))]
pub(crate) fn kept_reference_if<O: Output>(
    out: &mut O,
    opened: bool,
    tag: Tag,
    kept: Option<NameView<'_>>,
) -> bool
    ensures { Writes (O.said out.old) opened (O.said out.new) result (parts.if_some tag parts.reference (option_map seen_reference kept.entry)) }
{
    match kept {
        Some(found) => {
            kept_reference(out, opened, tag, found);
            false
        }
        None => opened,
    }
}

/// Writes a role as an entry keeps it, where it is there.
#[tactic(auto, unfolding(crate::specs::Parts::put_all))]
pub(crate) fn kept_role_if<O: Output>(out: &mut O, opened: bool, kept: Option<NameView<'_>>) -> bool
    ensures { Writes (O.said out.old) opened (O.said out.new) result (parts.if_some Tag.Role parts.role (option_map seen_role kept.entry)) }
{
    match kept {
        Some(found) => {
            spelled_leaf(out, opened, Tag::Role, found.text);
            false
        }
        None => opened,
    }
}

/// Writes a role.
#[tactic(auto, unfolding(crate::specs::Parts::put_all))]
pub(crate) fn role<O: Output>(out: &mut O, opened: bool, given: &Name)
    ensures { Writes (O.said out.old) opened (O.said out.new) false (parts.one Tag.Role (parts.role given.now)) }
{
    leaf(out, opened, Tag::Role, &given.text);
}
