//! Writing lists, and what may be missing.

ghost use Rattle.std.specs.Prelude.{◌≡◌, [], ℕ, List, true, false, map};
ghost use Rattle.xhstt_shape.specs.declared.words.Tag.{Tag as AnyTag};
ghost use Rattle.xhstt_writer.specs.Trees.{none, filled};
ghost use Rattle.xhstt_writer.specs.Parts as parts;
ghost use Rattle.xhstt_writer.specs.Parts.{Body};
ghost use Rattle.xhstt_writer.specs.Output.{Aim, Writes, WritesOne};

use crate::output::Output;
use crate::parts::{begin, end};
use khe_base::Seq;
use xhstt_shape::Tag;

/// What is written as an element.
pub(crate) trait Write {
    ghost body: { Self → Body };

    /// Writes it under a name.
    fn write<O: Output>(&self, out: &mut O, opened: bool, tag: Tag)
        ensures { WritesOne (O.said out.old) opened (O.said out.new) tag (body self.now) };
}

/// What is written under a name of its own.
pub(crate) trait Tagged {
    ghost own_tag: { Self → AnyTag };

    /// The name of its element.
    fn tag(&self) -> Tag
        ensures { result ≡ own_tag self.now };
}

/// Writes what is there.
#[tactic(auto, unfolding(crate::specs::Parts::put_all))]
pub(crate) fn write_if<T: Write, O: Output>(
    out: &mut O,
    opened: bool,
    tag: Tag,
    item: &Option<T>,
) -> bool
    ensures { Writes (O.said out.old) opened (O.said out.new) result (parts.if_some tag T.body item.now) }
{
    match item {
        Some(item) => {
            item.write(out, opened, tag);
            false
        }
        None => opened,
    }
}

/// Writes items, each under one name.
#[tactic(auto, unfolding(crate::specs::Parts::put_all))]
pub(crate) fn items<T: Write, O: Output>(out: &mut O, opened: bool, tag: Tag, items: &[T]) -> bool
    ensures { Writes (O.said out.old) opened (O.said out.new) result (parts.many tag T.body items.now) }
{
    let mut still = opened;
    for item in items {
        item.write(out, still, tag);
        still = false;
    }
    still
}

/// Writes a list of items, where it is not empty.
#[tactic(auto, unfolding(crate::specs::Parts::put_all))]
pub(crate) fn list<T: Write, O: Output>(
    out: &mut O,
    opened: bool,
    outer: Tag,
    tag: Tag,
    list: &Seq<T>,
) -> bool
    ensures { Writes (O.said out.old) opened (O.said out.new) result (parts.list_of outer (parts.each (λ _. tag) T.body list.now)) }
{
    if list.is_empty() {
        return opened;
    }
    put_list(out, opened, outer, tag, list.as_slice());
    false
}

/// Writes an element around items.
#[tactic(auto, unfolding(crate::specs::Parts::put_all))]
fn put_list<T: Write, O: Output>(out: &mut O, opened: bool, outer: Tag, tag: Tag, list: &[T])
    ensures { Writes (O.said out.old) opened (O.said out.new) false (parts.one outer (parts.element [] (parts.put_all tag (map T.body list.now) none))) }
{
    begin(out, opened, outer);
    let inside = items(out, true, tag, list);
    end(out, inside, outer);
}

/// Writes items, each under its own name, as the last children of an element.
fn tagged_items<T: Write + Tagged, O: Output>(out: &mut O, opened: bool, items: &[T]) -> bool
    ensures { (t : AnyTag) (rest : List ℕ) (whole : Aim) → O.said out.old (filled (parts.each T.own_tag T.body items.now) opened t rest) whole → O.said out.new (filled none result t rest) whole }
{
    let mut still = opened;
    for item in items {
        item.write(out, still, item.tag());
        still = false;
    }
    still
}

/// Writes a list of items, each under its own name, where it is not empty.
pub(crate) fn tagged_list<T: Write + Tagged, O: Output>(
    out: &mut O,
    opened: bool,
    outer: Tag,
    list: &Seq<T>,
) -> bool
    ensures { Writes (O.said out.old) opened (O.said out.new) result (parts.list_of outer (parts.each T.own_tag T.body list.now)) }
{
    if list.is_empty() {
        return opened;
    }
    put_tagged(out, opened, outer, list.as_slice());
    false
}

/// Writes an element around items, each under its own name.
#[tactic(auto, unfolding(crate::specs::Parts::put_all))]
fn put_tagged<T: Write + Tagged, O: Output>(out: &mut O, opened: bool, outer: Tag, list: &[T])
    ensures { Writes (O.said out.old) opened (O.said out.new) false (parts.one outer (parts.element [] (parts.each T.own_tag T.body list.now))) }
{
    begin(out, opened, outer);
    let inside = tagged_items(out, true, list);
    end(out, inside, outer);
}
