//! Entries that are packed as they are read, from the elements that say them.

ghost use Rattle.std.specs.Prelude.{◌≡◌, ◌++◌, ◌∷◌, [], All, IfOk, OnOk, OnErr, map};
ghost use Rattle.std.specs.Option.{option_map};
ghost use Rattle.xhstt_text.specs.Unescape.{unescaped};
ghost use Rattle.xhstt_shape.specs.Contents.{role_text};
ghost use Rattle.xhstt_shape.specs.Packed.{ArePacked, IsEntryIn, IsGivenIn, IsLonger, IsTextIn, entries_at, entry_at, given_at, givens_at, reference_at, role_at, text_at, texts_of};
ghost use Rattle.xhstt_shape.specs.Values as spec;
ghost use Rattle.xhstt_shape.specs.Walk.{child as child_of};
ghost use Rattle.xhstt_shape.specs.declared.words.Tag.TheVariants as tag;

use crate::contents::role_text;
use crate::finding::{attribute, child};
use crate::leaves::optional_duration;
use crate::packed::{PackedEntry, PackedGiven, PackedName, PackedText, fitting, pack_text};
use crate::packing::row;
use crate::words::{Label, Tag};
use khe_base::NoMemory;
use std::alloc::Global;
use xhstt_text::{Element, as_it_stands, unescape};

/// Adds the text that an attribute's value stands for.
fn pack_value(alloc: Global, letters: &mut Vec<u8>, value: &[u8]) -> Result<PackedText, NoMemory>
    ensures longer { IsLonger letters.old.items letters.new.items }
    ensures inside { IfOk result (IsTextIn letters.new.items) }
    ensures text { IfOk result (λ t. text_at letters.new.items t ≡ unescaped value.now) }
{
    if let Some(text) = as_it_stands(value) {
        return pack_text(letters, text);
    }
    let text = unescape(alloc, value)?;
    pack_text(letters, text.spelling())
}

/// Adds the reference of an element, where it has one.
#[tactic(auto, unfolding(crate::specs::Values::optional_reference, crate::specs::Values::optional_name))]
fn pack_given_reference(
    alloc: Global,
    letters: &mut Vec<u8>,
    element: &Element<'_, '_>,
) -> Result<Option<PackedName>, NoMemory>
    ensures longer { IsLonger letters.old.items letters.new.items }
    ensures inside { IfOk result (λ o. All (IsTextIn letters.new.items) (texts_of o)) }
    ensures is { IfOk result (λ o. option_map (reference_at letters.new.items) o ≡ spec.optional_reference element.now) }
{
    match attribute(Label::Reference, element) {
        Some(found) => Ok(Some(PackedName {
            text: pack_value(alloc, letters, found.value)?,
            at: fitting(found.value_at)?,
        })),
        None => Ok(None),
    }
}

/// Adds the reference of an element, or that which stands in where it has none.
#[tactic(auto, unfolding(crate::specs::Values::reference))]
fn pack_reference_of(
    alloc: Global,
    letters: &mut Vec<u8>,
    element: &Element<'_, '_>,
) -> Result<PackedName, NoMemory>
    ensures longer { IsLonger letters.old.items letters.new.items }
    ensures inside { IfOk result (λ n. IsTextIn letters.new.items n.text) }
    ensures is { IfOk result (λ n. reference_at letters.new.items n ≡ spec.reference element.now) }
{
    match pack_given_reference(alloc, letters, element)? {
        Some(found) => Ok(found),
        None => Ok(PackedName {
            text: pack_text(letters, "")?,
            at: 0,
        }),
    }
}

/// Adds the time of an entry's element, where it gives one.
fn pack_time_of(
    alloc: Global,
    letters: &mut Vec<u8>,
    element: &Element<'_, '_>,
) -> Result<Option<PackedName>, NoMemory>
    ensures longer { IsLonger letters.old.items letters.new.items }
    ensures inside { IfOk result (λ o. All (IsTextIn letters.new.items) (texts_of o)) }
    ensures is { IfOk result (λ o. option_map (reference_at letters.new.items) o ≡ option_map spec.reference (child_of tag.Time element.now.kids)) }
{
    match child(Tag::Time, element) {
        Some(found) => Ok(Some(pack_reference_of(alloc, letters, &found)?)),
        None => Ok(None),
    }
}

/// Adds the role of a resource's element, where it has one.
fn pack_role_of(
    alloc: Global,
    letters: &mut Vec<u8>,
    element: &Element<'_, '_>,
) -> Result<Option<PackedName>, NoMemory>
    ensures longer { IsLonger letters.old.items letters.new.items }
    ensures inside { IfOk result (λ o. All (IsTextIn letters.new.items) (texts_of o)) }
    ensures is { IfOk result (λ o. option_map (role_at letters.new.items) o ≡ option_map spec.role (child_of tag.Role element.now.kids)) }
{
    match child(Tag::Role, element) {
        Some(found) => Ok(Some(pack_role_text(alloc, letters, &found)?)),
        None => Ok(None),
    }
}

/// Adds the role that an element says.
#[tactic(auto, unfolding(crate::specs::Values::role))]
fn pack_role_text(
    alloc: Global,
    letters: &mut Vec<u8>,
    element: &Element<'_, '_>,
) -> Result<PackedName, NoMemory>
    ensures longer { IsLonger letters.old.items letters.new.items }
    ensures inside { IfOk result (λ n. IsTextIn letters.new.items n.text) }
    ensures is { IfOk result (λ n. role_at letters.new.items n ≡ spec.role element.now) }
{
    let role = role_text(alloc, element.value())?;
    Ok(PackedName {
        text: pack_text(letters, role.spelling())?,
        at: fitting(element.value_at())?,
    })
}

/// Adds the texts of a resource's element.
#[tactic(auto, unfolding(crate::specs::Values::given))]
fn pack_given_of(
    alloc: Global,
    letters: &mut Vec<u8>,
    element: &Element<'_, '_>,
) -> Result<PackedGiven, NoMemory>
    ensures longer { IsLonger letters.old.items letters.new.items }
    ensures inside { IfOk result (IsGivenIn letters.new.items) }
    ensures is { IfOk result (λ g. given_at letters.new.items g ≡ spec.given element.now) }
{
    let reference = pack_reference_of(alloc, letters, element)?;
    let role = pack_role_of(alloc, letters, element)?;
    Ok(PackedGiven { reference, role })
}

/// Adds the resource that an element says to those of all entries.
fn push_given_of(
    alloc: Global,
    letters: &mut Vec<u8>,
    givens: &mut Vec<PackedGiven>,
    element: &Element<'_, '_>,
) -> Result<(), NoMemory>
    requires { All (IsGivenIn letters.old.items) givens.old.items }
    ensures longer { IsLonger letters.old.items letters.new.items }
    ensures more { IsLonger givens.old.items givens.new.items }
    ensures inside { All (IsGivenIn letters.new.items) givens.new.items }
    ensures is { OnOk result (givens_at letters.new.items givens.new.items ≡ givens_at letters.old.items givens.old.items ++ spec.given element.now ∷ []) }
{
    let packed = pack_given_of(alloc, letters, element)?;
    givens.push(packed)?;
    Ok(())
}

/// Adds the resources that the children of an element say to those of all entries.
fn push_children(
    alloc: Global,
    letters: &mut Vec<u8>,
    givens: &mut Vec<PackedGiven>,
    element: &Element<'_, '_>,
) -> Result<(), NoMemory>
    requires { All (IsGivenIn letters.old.items) givens.old.items }
    ensures longer { IsLonger letters.old.items letters.new.items }
    ensures more { IsLonger givens.old.items givens.new.items }
    ensures inside { All (IsGivenIn letters.new.items) givens.new.items }
    ensures is { OnOk result (givens_at letters.new.items givens.new.items ≡ givens_at letters.old.items givens.old.items ++ map spec.given (spec.elements element.now.kids)) }
{
    let mut rest = element.children();
    while let Some(next) = rest.next() {
        push_given_of(alloc, letters, givens, &next)?;
    }
    Ok(())
}

/// Adds the resources of an entry's element to those of all entries.
#[tactic(auto, unfolding(crate::specs::Values::every))]
fn push_resources_of(
    alloc: Global,
    letters: &mut Vec<u8>,
    givens: &mut Vec<PackedGiven>,
    element: &Element<'_, '_>,
) -> Result<(), NoMemory>
    requires { All (IsGivenIn letters.old.items) givens.old.items }
    ensures longer { IsLonger letters.old.items letters.new.items }
    ensures more { IsLonger givens.old.items givens.new.items }
    ensures inside { All (IsGivenIn letters.new.items) givens.new.items }
    ensures is { OnOk result (givens_at letters.new.items givens.new.items ≡ givens_at letters.old.items givens.old.items ++ map spec.given (spec.every tag.Resources element.now)) }
{
    match child(Tag::Resources, element) {
        Some(found) => push_children(alloc, letters, givens, &found),
        None => Ok(()),
    }
}

/// Adds the texts and the resources of an entry's element.
fn pack_entry_of(
    alloc: Global,
    letters: &mut Vec<u8>,
    givens: &mut Vec<PackedGiven>,
    element: &Element<'_, '_>,
) -> Result<PackedEntry, NoMemory>
    requires { All (IsGivenIn letters.old.items) givens.old.items }
    ensures longer { IsLonger letters.old.items letters.new.items }
    ensures more { IsLonger givens.old.items givens.new.items }
    ensures inside { All (IsGivenIn letters.new.items) givens.new.items }
    ensures row { IfOk result (IsEntryIn letters.new.items givens.new.items) }
    ensures is { IfOk result (λ e. entry_at letters.new.items givens.new.items e ≡ spec.entry element.now) }
{
    let reference = pack_reference_of(alloc, letters, element)?;
    let duration = optional_duration(alloc, element)?;
    let time = pack_time_of(alloc, letters, element)?;
    let first = givens.len();
    push_resources_of(alloc, letters, givens, element)?;
    row(reference, duration, time, first, givens.len())
}

/// Adds the entry that an element says. Where memory is refused, the entries stay as they were.
pub(crate) fn push_entry_of(
    alloc: Global,
    letters: &mut Vec<u8>,
    givens: &mut Vec<PackedGiven>,
    rows: &mut Vec<PackedEntry>,
    element: &Element<'_, '_>,
) -> Result<(), NoMemory>
    requires { ArePacked letters.old.items givens.old.items rows.old.items }
    ensures packed { ArePacked letters.new.items givens.new.items rows.new.items }
    ensures ok { OnOk result (entries_at letters.new.items givens.new.items rows.new.items ≡ entries_at letters.old.items givens.old.items rows.old.items ++ spec.entry element.now ∷ []) }
    ensures err { OnErr result (entries_at letters.new.items givens.new.items rows.new.items ≡ entries_at letters.old.items givens.old.items rows.old.items) }
{
    let packed = pack_entry_of(alloc, letters, givens, element)?;
    rows.push(packed)?;
    Ok(())
}
