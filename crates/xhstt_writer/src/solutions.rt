//! Writing solution groups and solutions.

ghost use Rattle.std.specs.Prelude.{[], true, false, map};
ghost use Rattle.xhstt_shape.specs.declared.words.Tag.TheVariants as tag;
ghost use Rattle.xhstt_writer.specs.Archives as spec;
ghost use Rattle.xhstt_writer.specs.Output.{Writes};
ghost use Rattle.xhstt_writer.specs.Parts as parts;
ghost use Rattle.xhstt_writer.specs.Trees.{none};

use crate::lists::{Write, items, write_if};
use crate::output::Output;
use crate::parts::{
    attribute, begin, end, kept_reference_if, kept_role_if, leaf_if, number_if, spelled_attribute,
};
use xhstt_shape::{
    Entries, EntryView, GivenView, GivenViews, Label, RawSolution, SolutionGroup, Tag,
};

impl<'a> Write for GivenView<'a> {
    ghost use Rattle.xhstt_writer.specs.Archives as spec;

    ghost body = { spec.given };

    fn write<O: Output>(&self, out: &mut O, opened: bool, tag: Tag) {
        begin(out, opened, tag);
        spelled_attribute(out, Label::Reference, self.reference().text);
        let inside = kept_role_if(out, true, self.role());
        end(out, inside, tag);
    }
}

/// Writes the resources of an entry, each under one name.
#[tactic(auto, unfolding(crate::specs::Parts::put_all))]
fn given_items<O: Output>(out: &mut O, opened: bool, givens: GivenViews<'_>) -> bool
    ensures { Writes (O.said out.old) opened (O.said out.new) result (parts.many tag.Resource spec.given givens.entry) }
{
    let mut rest = givens;
    let mut still = opened;
    while let Some(given) = rest.next() {
        given.write(out, still, Tag::Resource);
        still = false;
    }
    still
}

/// Writes an element around the resources of an entry.
#[tactic(auto, unfolding(crate::specs::Parts::put_all))]
fn put_givens<O: Output>(out: &mut O, opened: bool, givens: GivenViews<'_>)
    ensures { Writes (O.said out.old) opened (O.said out.new) false (parts.one tag.Resources (parts.element [] (parts.put_all tag.Resource (map spec.given givens.entry) none))) }
{
    begin(out, opened, Tag::Resources);
    let inside = given_items(out, true, givens);
    end(out, inside, Tag::Resources);
}

/// Writes the resources of an entry, where it gives any.
#[tactic(auto, unfolding(crate::specs::Parts::put_all))]
fn given_list<O: Output>(out: &mut O, opened: bool, givens: GivenViews<'_>) -> bool
    ensures { Writes (O.said out.old) opened (O.said out.new) result (parts.list_of tag.Resources (parts.each (λ _. tag.Resource) spec.given givens.entry)) }
{
    if givens.is_empty() {
        return opened;
    }
    put_givens(out, opened, givens);
    false
}

impl<'a> Write for EntryView<'a> {
    ghost use Rattle.xhstt_writer.specs.Archives as spec;

    ghost body = { spec.entry };

    fn write<O: Output>(&self, out: &mut O, opened: bool, tag: Tag) {
        begin(out, opened, tag);
        spelled_attribute(out, Label::Reference, self.reference().text);
        let mut inside = number_if(out, true, Tag::Duration, self.duration());
        inside = kept_reference_if(out, inside, Tag::Time, self.time());
        inside = given_list(out, inside, self.resources());
        end(out, inside, tag);
    }
}

/// Writes entries, each under one name.
#[tactic(auto, unfolding(crate::specs::Parts::put_all))]
fn entry_items<O: Output>(out: &mut O, opened: bool, entries: &Entries) -> bool
    ensures { Writes (O.said out.old) opened (O.said out.new) result (parts.many tag.Event spec.entry entries.now) }
{
    let mut rest = entries.views();
    let mut still = opened;
    while let Some(entry) = rest.next() {
        entry.write(out, still, Tag::Event);
        still = false;
    }
    still
}

/// Writes an element around entries.
#[tactic(auto, unfolding(crate::specs::Parts::put_all))]
fn put_entries<O: Output>(out: &mut O, opened: bool, entries: &Entries)
    ensures { Writes (O.said out.old) opened (O.said out.new) false (parts.one tag.Events (parts.element [] (parts.put_all tag.Event (map spec.entry entries.now) none))) }
{
    begin(out, opened, Tag::Events);
    let inside = entry_items(out, true, entries);
    end(out, inside, Tag::Events);
}

/// Writes the entries of a solution, where it has any.
#[tactic(auto, unfolding(crate::specs::Parts::put_all))]
fn entry_list<O: Output>(out: &mut O, opened: bool, entries: &Entries) -> bool
    ensures { Writes (O.said out.old) opened (O.said out.new) result (parts.list_of tag.Events (parts.each (λ _. tag.Event) spec.entry entries.now)) }
{
    if entries.is_empty() {
        return opened;
    }
    put_entries(out, opened, entries);
    false
}

impl Write for RawSolution {
    ghost use Rattle.xhstt_writer.specs.Archives as spec;

    ghost body = { spec.solution };

    fn write<O: Output>(&self, out: &mut O, opened: bool, tag: Tag) {
        begin(out, opened, tag);
        attribute(out, Label::Reference, &self.reference.id);
        let mut inside = leaf_if(out, true, Tag::Description, &self.description);
        inside = leaf_if(out, inside, Tag::RunningTime, &self.running_time);
        inside = entry_list(out, inside, &self.events);
        end(out, inside, tag);
    }
}

impl Write for SolutionGroup {
    ghost use Rattle.xhstt_writer.specs.Archives as spec;

    ghost body = { spec.solution_group };

    fn write<O: Output>(&self, out: &mut O, opened: bool, tag: Tag) {
        begin(out, opened, tag);
        attribute(out, Label::Id, &self.id.text);
        let mut inside = write_if(out, true, Tag::MetaData, &self.meta_data);
        inside = items(out, inside, Tag::Solution, self.solutions.as_slice());
        end(out, inside, tag);
    }
}
