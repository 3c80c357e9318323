//! The trait of what is built from an element, and lists and options of such records.

ghost use Rattle.std.specs.Prelude.{◌≡◌, [], IfOk, map};
ghost use Rattle.std.specs.Option.{option_map};
ghost use Rattle.xhstt_text.specs.Handles.{Standing};
ghost use Rattle.xhstt_shape.specs.Walk.{child as child_of};
ghost use Rattle.xhstt_shape.specs.Values as spec;

use crate::finding::child;
use crate::words::{Tag, is_word};
use khe_base::{NoMemory, Seq};
use std::alloc::Global;
use xhstt_text::Element;

/// What is built from an element of a tree.
pub(crate) trait Build: Drop {
    ghost value: { Standing → Self };

    /// What the element says. It takes time and memory linear in the element.
    fn build(alloc: Global, element: &Element<'_, '_>) -> Result<Self, NoMemory>
        ensures { IfOk result (λ v. v ≡ value element.now) };
}

/// What the child of a name says, where it stands.
pub(crate) fn optional<T: Build>(
    alloc: Global,
    tag: Tag,
    element: &Element<'_, '_>,
) -> Result<Option<T>, NoMemory>
    ensures { IfOk result (λ o. o ≡ option_map T.value (child_of tag element.now.kids)) }
{
    match child(tag, element) {
        Some(found) => Ok(Some(T::build(alloc, &found)?)),
        None => Ok(None),
    }
}

/// An empty list with room for the given number of elements. It takes memory for these alone, and none where
/// there are none.
pub(crate) fn with_room<T>(alloc: Global, count: usize) -> Result<Seq<T>, NoMemory>
    ensures { IfOk result (λ list. list ≡ []) }
{
    Ok(Seq {
        items: Vec::with_capacity(alloc, count)?,
    })
}

/// How many children an element has: the room that a list of what they say wants. It takes time
/// linear in their number.
pub(crate) fn count(element: &Element<'_, '_>) -> usize {
    let mut rest = element.children();
    let mut count: usize = 0;
    while let Some(_next) = rest.next() {
        count = count.saturating_add(1);
    }
    count
}

/// How many children of a name an element has: the room that a list of what they say wants. It takes
/// time linear in the number of children.
fn count_named(tag: Tag, element: &Element<'_, '_>) -> usize {
    let word = tag.word();
    let mut rest = element.children();
    let mut count: usize = 0;
    while let Some(next) = rest.next() {
        if is_word(word, next.name()) {
            count = count.saturating_add(1);
        }
    }
    count
}

/// What each child says, in a list without room to spare.
fn children<T: Build>(alloc: Global, element: &Element<'_, '_>) -> Result<Seq<T>, NoMemory>
    ensures { IfOk result (λ list. list ≡ map T.value (spec.elements element.now.kids)) }
{
    let mut list = with_room(alloc, count(element))?;
    let mut rest = element.children();
    while let Some(next) = rest.next() {
        list.push(T::build(alloc, &next)?)?;
    }
    Ok(list)
}

/// What each child of a name says, in a list without room to spare.
#[tactic(auto, unfolding(crate::specs::Values::all))]
pub(crate) fn all<T: Build>(
    alloc: Global,
    tag: Tag,
    element: &Element<'_, '_>,
) -> Result<Seq<T>, NoMemory>
    ensures { IfOk result (λ list. list ≡ map T.value (spec.all tag element.now)) }
{
    let word = tag.word();
    let mut list = with_room(alloc, count_named(tag, element))?;
    let mut rest = element.children();
    while let Some(next) = rest.next() {
        if is_word(word, next.name()) {
            list.push(T::build(alloc, &next)?)?;
        }
    }
    Ok(list)
}

/// What each child of a child says; nothing where that child is missing.
#[tactic(auto, unfolding(crate::specs::Values::every))]
pub(crate) fn every<T: Build>(
    alloc: Global,
    tag: Tag,
    element: &Element<'_, '_>,
) -> Result<Seq<T>, NoMemory>
    ensures { IfOk result (λ list. list ≡ map T.value (spec.every tag element.now)) }
{
    match child(tag, element) {
        Some(found) => children(alloc, &found),
        None => Ok(Seq::new(alloc)),
    }
}

/// What each child of a child's child says; nothing where one of them is missing.
#[tactic(auto, unfolding(crate::specs::Values::every, crate::specs::Values::every_inside))]
pub(crate) fn every_inside<T: Build>(
    alloc: Global,
    outer: Tag,
    inner: Tag,
    element: &Element<'_, '_>,
) -> Result<Seq<T>, NoMemory>
    ensures { IfOk result (λ list. list ≡ map T.value (spec.every_inside outer inner element.now)) }
{
    match child(outer, element) {
        Some(found) => every(alloc, inner, &found),
        None => Ok(Seq::new(alloc)),
    }
}

/// What each child of a name of a child says; nothing where that child is missing.
#[tactic(auto, unfolding(crate::specs::Values::all, crate::specs::Values::all_inside))]
pub(crate) fn all_inside<T: Build>(
    alloc: Global,
    outer: Tag,
    tag: Tag,
    element: &Element<'_, '_>,
) -> Result<Seq<T>, NoMemory>
    ensures { IfOk result (λ list. list ≡ map T.value (spec.all_inside outer tag element.now)) }
{
    match child(outer, element) {
        Some(found) => all(alloc, tag, &found),
        None => Ok(Seq::new(alloc)),
    }
}
