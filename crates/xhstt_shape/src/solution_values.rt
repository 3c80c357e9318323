//! Building solution groups, solutions and their events from elements.

ghost use Rattle.std.specs.Prelude.{◌≡◌, IfOk, map};
ghost use Rattle.xhstt_shape.specs.Values as spec;
ghost use Rattle.xhstt_shape.specs.declared.words.Tag.TheVariants as tag;

use crate::building::{Build, all, count, every, optional};
use crate::entries::Entries;
use crate::finding::child;
use crate::leaves::{id, optional_name};
use crate::records::{Archive, RawSolution, SolutionGroup};
use crate::words::{Label, Tag};
use khe_base::{NoMemory, both};
use std::alloc::Global;
use xhstt_text::Element;

impl Build for RawSolution {
    ghost value = { spec.solution };

    #[tactic(auto, unfolding(crate::specs::Values::solution))]
    fn build(alloc: Global, element: &Element<'_, '_>) -> Result<RawSolution, NoMemory> {
        Ok(RawSolution {
            reference: Build::build(alloc, element)?,
            description: optional(alloc, Tag::Description, element)?,
            running_time: optional(alloc, Tag::RunningTime, element)?,
            events: entries(alloc, element)?,
        })
    }
}

/// The entries of a solution's element.
#[tactic(auto, unfolding(crate::specs::Values::every))]
fn entries(alloc: Global, element: &Element<'_, '_>) -> Result<Entries, NoMemory>
    ensures { IfOk result (λ list. list ≡ map spec.entry (spec.every tag.Events element.now)) }
{
    match child(Tag::Events, element) {
        Some(found) => entries_in(alloc, &found),
        None => Ok(Entries::new(alloc)),
    }
}

/// The entries that the children of an element say, without room to spare.
fn entries_in(alloc: Global, element: &Element<'_, '_>) -> Result<Entries, NoMemory>
    ensures { IfOk result (λ list. list ≡ map spec.entry (spec.elements element.now.kids)) }
{
    let mut list = Entries::with_room(alloc, count(element))?;
    let mut rest = element.children();
    while let Some(next) = rest.next() {
        list.push_element(alloc, &next)?;
    }
    list.shrink();
    Ok(list)
}

impl Build for SolutionGroup {
    ghost value = { spec.solution_group };

    #[tactic(auto, unfolding(crate::specs::Values::solution_group))]
    fn build(alloc: Global, element: &Element<'_, '_>) -> Result<SolutionGroup, NoMemory> {
        Ok(SolutionGroup {
            id: id(alloc, element)?,
            meta_data: optional(alloc, Tag::MetaData, element)?,
            solutions: all(alloc, Tag::Solution, element)?,
        })
    }
}

impl Build for Archive {
    ghost value = { spec.archive };

    #[tactic(auto, unfolding(crate::specs::Values::archive))]
    fn build(alloc: Global, element: &Element<'_, '_>) -> Result<Archive, NoMemory> {
        let head = both(
            optional_name(alloc, Label::Id, element),
            optional(alloc, Tag::MetaData, element),
        );
        let lists = both(
            every(alloc, Tag::Instances, element),
            every(alloc, Tag::SolutionGroups, element),
        );
        let ((id, meta_data), (instances, solution_groups)) = both(head, lists)?;
        Ok(Archive {
            id,
            meta_data,
            instances,
            solution_groups,
        })
    }
}
