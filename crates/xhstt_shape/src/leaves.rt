//! Building references, names and other records without children of their own.

ghost use Rattle.std.specs.Prelude.{◌≡◌, IfOk};
ghost use Rattle.xhstt_shape.specs.Values as spec;

use crate::building::{Build, optional};
use crate::contents::{function_text, number_text, role_text, truth_text};
use crate::finding::{attribute, child};
use crate::records::{Name, Ref};
use crate::words::{Label, Tag};
use khe_base::limits::{GREATEST_BOUND, NUMBER};
use khe_base::{CostFn, NoMemory, Text};
use std::alloc::Global;
use xhstt_text::{Element, unescape};

impl Build for Text {
    ghost value = { spec.text };

    #[tactic(auto, unfolding(crate::specs::Values::text))]
    fn build(alloc: Global, element: &Element<'_, '_>) -> Result<Text, NoMemory> {
        unescape(alloc, element.value())
    }
}

/// A role.
impl Build for Name {
    ghost value = { spec.role };

    #[tactic(auto, unfolding(crate::specs::Values::role))]
    fn build(alloc: Global, element: &Element<'_, '_>) -> Result<Name, NoMemory> {
        Ok(Name {
            text: role_text(alloc, element.value())?,
            at: element.value_at(),
        })
    }
}

impl Build for Ref {
    ghost value = { spec.reference };

    #[tactic(auto, unfolding(crate::specs::Values::reference))]
    fn build(alloc: Global, element: &Element<'_, '_>) -> Result<Ref, NoMemory> {
        match optional_reference(alloc, element)? {
            Some(reference) => Ok(reference),
            None => Ok(no_reference(alloc)),
        }
    }
}

/// The reference that stands in where one is missing.
fn no_reference(alloc: Global) -> Ref
    ensures { result ≡ spec.as_reference spec.no_name }
{
    Ref {
        id: Text::new(alloc),
        at: 0,
    }
}

/// The name that stands in where one is missing.
fn no_name(alloc: Global) -> Name
    ensures { result ≡ spec.no_name }
{
    Name {
        text: Text::new(alloc),
        at: 0,
    }
}

/// An attribute as a name, where it stands.
#[tactic(auto, unfolding(crate::specs::Values::optional_name))]
pub(crate) fn optional_name(
    alloc: Global,
    label: Label,
    element: &Element<'_, '_>,
) -> Result<Option<Name>, NoMemory>
    ensures { IfOk result (λ n. n ≡ spec.optional_name label element.now) }
{
    match attribute(label, element) {
        Some(found) => Ok(Some(Name {
            text: unescape(alloc, found.value)?,
            at: found.value_at,
        })),
        None => Ok(None),
    }
}

/// The Id of an element.
#[tactic(auto, unfolding(crate::specs::Values::id))]
pub(crate) fn id(alloc: Global, element: &Element<'_, '_>) -> Result<Name, NoMemory>
    ensures { IfOk result (λ n. n ≡ spec.id element.now) }
{
    match optional_name(alloc, Label::Id, element)? {
        Some(found) => Ok(found),
        None => Ok(no_name(alloc)),
    }
}

/// The reference of an element, where it has one.
#[tactic(auto, unfolding(crate::specs::Values::optional_reference))]
pub(crate) fn optional_reference(
    alloc: Global,
    element: &Element<'_, '_>,
) -> Result<Option<Ref>, NoMemory>
    ensures { IfOk result (λ r. r ≡ spec.optional_reference element.now) }
{
    match optional_name(alloc, Label::Reference, element)? {
        Some(Name { text, at }) => Ok(Some(Ref { id: text, at })),
        None => Ok(None),
    }
}

/// The text of an attribute, where it stands.
#[tactic(auto, unfolding(crate::specs::Values::attribute_text))]
pub(crate) fn attribute_text(
    alloc: Global,
    label: Label,
    element: &Element<'_, '_>,
) -> Result<Option<Text>, NoMemory>
    ensures { IfOk result (λ t. t ≡ spec.attribute_text label element.now) }
{
    match optional_name(alloc, label, element)? {
        Some(Name { text, at: _ }) => Ok(Some(text)),
        None => Ok(None),
    }
}

/// The name of an element.
#[tactic(auto, unfolding(crate::specs::Values::name))]
pub(crate) fn name(alloc: Global, element: &Element<'_, '_>) -> Result<Text, NoMemory>
    ensures { IfOk result (λ t. t ≡ spec.name element.now) }
{
    match optional(alloc, Tag::Name, element)? {
        Some(text) => Ok(text),
        None => Ok(Text::new(alloc)),
    }
}

/// The reference of a child.
#[tactic(auto, unfolding(crate::specs::Values::the_reference))]
pub(crate) fn the_reference(
    alloc: Global,
    tag: Tag,
    element: &Element<'_, '_>,
) -> Result<Ref, NoMemory>
    ensures { IfOk result (λ r. r ≡ spec.the_reference tag element.now) }
{
    match optional(alloc, tag, element)? {
        Some(reference) => Ok(reference),
        None => Ok(no_reference(alloc)),
    }
}

/// The role that a child gives.
#[tactic(auto, unfolding(crate::specs::Values::the_role))]
pub(crate) fn the_role(alloc: Global, element: &Element<'_, '_>) -> Result<Name, NoMemory>
    ensures { IfOk result (λ r. r ≡ spec.the_role element.now) }
{
    match optional(alloc, Tag::Role, element)? {
        Some(role) => Ok(role),
        None => Ok(no_name(alloc)),
    }
}

/// The number of a child, where it stands.
#[tactic(auto, unfolding(crate::specs::Values::optional_number, crate::specs::Values::number))]
fn optional_number(
    alloc: Global,
    least: u32,
    greatest: u32,
    tag: Tag,
    element: &Element<'_, '_>,
) -> Result<Option<u32>, NoMemory>
    ensures { IfOk result (λ n. n ≡ spec.optional_number least greatest tag element.now) }
{
    match child(tag, element) {
        Some(found) => number_text(alloc, least, greatest, found.value()),
        None => Ok(None),
    }
}

/// A number up to 1,000,000; 0 where it is missing.
#[tactic(auto, unfolding(crate::specs::Values::lower))]
pub(crate) fn lower(alloc: Global, tag: Tag, element: &Element<'_, '_>) -> Result<u32, NoMemory>
    ensures { IfOk result (λ n. n ≡ spec.lower tag element.now) }
{
    let number = optional_number(alloc, 0, NUMBER, tag, element)?;
    Ok(number.unwrap_or(0))
}

/// A number up to the greatest bound; that bound where it is missing.
#[tactic(auto, unfolding(crate::specs::Values::upper))]
pub(crate) fn upper(alloc: Global, tag: Tag, element: &Element<'_, '_>) -> Result<u32, NoMemory>
    ensures { IfOk result (λ n. n ≡ spec.upper tag element.now) }
{
    let number = optional_number(alloc, 0, GREATEST_BOUND, tag, element)?;
    Ok(number.unwrap_or(GREATEST_BOUND))
}

/// A duration, where it stands.
#[tactic(auto, unfolding(crate::specs::Values::optional_duration))]
pub(crate) fn optional_duration(
    alloc: Global,
    element: &Element<'_, '_>,
) -> Result<Option<u32>, NoMemory>
    ensures { IfOk result (λ n. n ≡ spec.optional_duration element.now) }
{
    optional_number(alloc, 1, NUMBER, Tag::Duration, element)
}

/// A duration.
#[tactic(auto, unfolding(crate::specs::Values::duration))]
pub(crate) fn duration(alloc: Global, element: &Element<'_, '_>) -> Result<u32, NoMemory>
    ensures { IfOk result (λ n. n ≡ spec.duration element.now) }
{
    let number = optional_duration(alloc, element)?;
    Ok(number.unwrap_or(1))
}

/// A workload, where it stands.
#[tactic(auto, unfolding(crate::specs::Values::workload))]
pub(crate) fn workload(alloc: Global, element: &Element<'_, '_>) -> Result<Option<u32>, NoMemory>
    ensures { IfOk result (λ n. n ≡ spec.workload element.now) }
{
    optional_number(alloc, 0, NUMBER, Tag::Workload, element)
}

/// Whether the cost of a constraint is hard.
#[tactic(auto, unfolding(crate::specs::Values::required))]
pub(crate) fn required(alloc: Global, element: &Element<'_, '_>) -> Result<bool, NoMemory>
    ensures { IfOk result (λ b. b ≡ spec.required element.now) }
{
    match child(Tag::Required, element) {
        Some(found) => {
            let truth = truth_text(alloc, found.value())?;
            Ok(truth.unwrap_or(false))
        }
        None => Ok(false),
    }
}

/// The cost function of a constraint.
#[tactic(auto, unfolding(crate::specs::Values::cost_function))]
pub(crate) fn cost_function(alloc: Global, element: &Element<'_, '_>) -> Result<CostFn, NoMemory>
    ensures { IfOk result (λ f. f ≡ spec.cost_function element.now) }
{
    match child(Tag::CostFunction, element) {
        Some(found) => {
            let function = function_text(alloc, found.value())?;
            Ok(function.unwrap_or(CostFn::Linear))
        }
        None => Ok(CostFn::Linear),
    }
}
