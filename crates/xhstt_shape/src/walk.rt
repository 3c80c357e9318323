//! The walk over a tree that finds its first fault against the table of elements.

ghost use Rattle.std.specs.Prelude.{◌≡◌, ◌≤◌, ◌<◌, ℕ, List, [], true, if◌then◌else◌, length, nat_eq, IsTrue};
ghost use Rattle.std.specs.List.{position};
ghost use Rattle.khe_base.specs.Bits.{has_bit};
ghost use Rattle.xhstt_shape.specs.Faults.{IsTold, fine};
ghost use Rattle.xhstt_shape.specs.Seen.{IsRuleOf, IsSeen, is_named};
ghost use Rattle.xhstt_shape.specs.Walk as spec;
ghost use Rattle.xhstt_shape.specs.declared.words.Tag.{Tag};

use crate::contents::{function_text, is_role, number_text, truth_text};
use crate::faults::{ShapeFault, unless};
use crate::finding::{attribute, child};
use crate::schema::{AllowedAttribute, Child, Content, Mark, Row};
use crate::words::{Label, is_word};
use fault_tables::{BAD_NUMBER, BAD_WORD, MISSING_CHILD, REPEATED_CHILD, UNKNOWN_ELEMENT};
use khe_base::bits::has_bit;
use std::alloc::Global;
use xhstt_text::Element;

/// Finds the first fault of an element of a row.
///
/// It takes time linear in the element. The table's rows do not lead back to themselves, so the
/// recursion is no deeper than the table.
#[cycle(walk)]
pub(crate) fn look_at(alloc: Global, row: Row, element: &Element<'_, '_>) -> Result<(), ShapeFault>
    ensures { IsTold result (spec.fault_of row element.now) }
{
    let content = row.content();
    if let Content::Anything = content {
        return Ok(());
    }
    look_at_attributes(row.attributes(), element)?;
    look_at_loose(content, element)?;
    look_at_children(alloc, row, element)?;
    unless(
        has_children(row.children(), element),
        MISSING_CHILD,
        element.at(),
    )?;
    look_at_value(alloc, content, element)
}

/// Finds the first fault of the children of an element of a row. Which of the table's children came
/// and may not come again is kept as bits of one number, so it takes no memory.
#[cycle(walk)]
#[tactic(auto, using(crate::proofs::SeenLaws::few))]
fn look_at_children(alloc: Global, row: Row, element: &Element<'_, '_>) -> Result<(), ShapeFault>
    ensures { IsTold result (spec.children_fault row [] element.now.kids) }
{
    let mut rest = element.children();
    let mut seen = 0;
    while let Some(next) = rest.next() {
        let (rule, seen_now) = rule_of(row.children(), &next, seen)?;
        look_at(alloc, settled(rule.row, &next), &next)?;
        seen = seen_now;
    }
    Ok(())
}

/// The table's child for an element by its name, where the bits are those of the children that came
/// and may not come again, by their places in the table; with the bits after this element.
fn rule_of(
    rules: &[Child],
    element: &Element<'_, '_>,
    seen: u64,
) -> Result<(Child, u64), ShapeFault>
    requires { length rules.now ≤ 64 }
    ensures { (tags : List Tag) → IsSeen rules.now seen tags → IsRuleOf rules.now tags element.now.info result }
{
    let Some(place) = place_of(rules, element.name()) else {
        return Err(ShapeFault::Bad {
            kind: UNKNOWN_ELEMENT,
            at: element.at(),
        });
    };
    if has_bit(seen, place as u32) {
        return Err(ShapeFault::Bad {
            kind: REPEATED_CHILD,
            at: element.at(),
        });
    }
    let rule = rules[place];
    Ok((rule, see(rule.mark, place as u32, seen)))
}

/// The place in the table of the child of this name.
fn place_of(rules: &[Child], name: &[u8]) -> Option<usize>
    ensures { result ≡ position (is_named name.now) rules.now }
{
    rules.iter().position(|rule| is_word(rule.tag.word(), name))
}

/// The bits with that of a child, unless it may come again.
fn see(mark: Mark, place: u32, seen: u64) -> u64
    requires { place < 64 }
    ensures { (n : ℕ) → has_bit result n ≡ (if spec.is_many mark then has_bit seen n else if nat_eq n place then true else has_bit seen n) }
{
    match mark {
        Mark::Many => seen,
        _ => with_bit(seen, place),
    }
}

/// A word with the bit of a place.
fn with_bit(word: u64, place: u32) -> u64
    requires { place < 64 }
    ensures { (n : ℕ) → has_bit result n ≡ (if nat_eq n place then true else has_bit word n) }
{
    word | 1 << place
}

/// The row of an element: an event resource without a reference is one of another row.
#[tactic(auto, unfolding(crate::specs::Walk::settled))]
fn settled(row: Row, element: &Element<'_, '_>) -> Row
    ensures { result ≡ spec.settled row element.now.info }
{
    match row {
        Row::EventResource => {
            if attribute(Label::Reference, element).is_some() {
                Row::EventResource
            } else {
                Row::OpenResource
            }
        }
        other => other,
    }
}

/// Finds the first attribute that the table does not have there, or else an attribute that is
/// missing.
fn look_at_attributes(
    allowed: &[AllowedAttribute],
    element: &Element<'_, '_>,
) -> Result<(), ShapeFault>
    ensures { result ≡ spec.all_attributes_fault allowed.now element.now.info }
{
    if has_the_one(allowed, element) {
        return Ok(());
    }
    let mut rest = element.attributes();
    while let Some(next) = rest.next() {
        unless(is_label(allowed, next.name), UNKNOWN_ELEMENT, next.name_at)?;
    }
    unless(
        has_attributes(allowed, element),
        MISSING_CHILD,
        element.at(),
    )
}

/// Whether the table has one attribute there and the element that one alone, as in most elements that have any: then
/// its name is compared once, and not once more as one that may be missing.
fn has_the_one(allowed: &[AllowedAttribute], element: &Element<'_, '_>) -> bool
    ensures { IsTrue result → spec.all_attributes_fault allowed.now element.now.info ≡ fine }
{
    let [one] = allowed else {
        return false;
    };
    let mut rest = element.attributes();
    match rest.next() {
        Some(found) => rest.len() == 0 && is_word(one.label.word(), found.name),
        None => false,
    }
}

/// Whether the table has an attribute of this name.
fn is_label(allowed: &[AllowedAttribute], name: &[u8]) -> bool
    ensures { result ≡ spec.is_label allowed.now name.now }
{
    allowed.iter().any(|one| is_word(one.label.word(), name))
}

/// Whether no attribute that has to stand is missing.
fn has_attributes(allowed: &[AllowedAttribute], element: &Element<'_, '_>) -> bool
    ensures { result ≡ spec.has_attributes allowed.now element.now.info.attributes }
{
    allowed.iter().all(|one| has_allowed(*one, element))
}

/// Whether an attribute stands, or need not.
fn has_allowed(allowed: AllowedAttribute, element: &Element<'_, '_>) -> bool
    ensures { result ≡ spec.has_allowed allowed element.now.info.attributes }
{
    !allowed.required || attribute(allowed.label, element).is_some()
}

/// Whether no child that has to stand is missing.
fn has_children(rules: &[Child], element: &Element<'_, '_>) -> bool
    ensures { result ≡ spec.has_children rules.now element.now.kids }
{
    rules.iter().all(|rule| has_child(*rule, element))
}

/// Whether a child stands, or need not.
fn has_child(rule: Child, element: &Element<'_, '_>) -> bool
    ensures { result ≡ spec.has_child rule element.now.kids }
{
    match rule.mark {
        Mark::Once => child(rule.tag, element).is_some(),
        _ => true,
    }
}

/// Finds text where elements are to stand.
fn look_at_loose(content: Content, element: &Element<'_, '_>) -> Result<(), ShapeFault>
    ensures { result ≡ spec.loose_fault content element.now.info.loose }
{
    match (content, element.loose()) {
        (Content::Elements, Some(at)) => Err(ShapeFault::Bad { kind: BAD_WORD, at }),
        _ => Ok(()),
    }
}

/// Finds a value that is not in form.
fn look_at_value(
    alloc: Global,
    content: Content,
    element: &Element<'_, '_>,
) -> Result<(), ShapeFault>
    ensures { IsTold result (spec.value_fault content element.now.info) }
{
    match content {
        Content::Number { least, greatest } => {
            let number = number_text(alloc, least, greatest, element.value())?;
            unless(number.is_some(), BAD_NUMBER, element.value_at())
        }
        Content::Truth => {
            let truth = truth_text(alloc, element.value())?;
            unless(truth.is_some(), BAD_WORD, element.value_at())
        }
        Content::Function => {
            let function = function_text(alloc, element.value())?;
            unless(function.is_some(), BAD_WORD, element.value_at())
        }
        Content::Role => {
            let has_role = is_role(alloc, element.value())?;
            unless(has_role, BAD_WORD, element.value_at())
        }
        _ => Ok(()),
    }
}
