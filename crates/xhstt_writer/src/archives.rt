//! Writing a whole archive.

ghost use Rattle.std.specs.Prelude.{[], true, false};
ghost use Rattle.xhstt_writer.specs.Archives as spec;
ghost use Rattle.xhstt_writer.specs.Trees.{Trees, head, spelled};
ghost use Rattle.xhstt_writer.specs.Parts as parts;
ghost use Rattle.xhstt_writer.specs.Output.{Aim, Puts};

use crate::lists::{list, write_if};
use crate::output::Output;
use crate::parts::{attribute, begin, end};
use xhstt_shape::{Archive, Label, Tag};

/// Writes the declaration.
#[tactic(auto, unfolding(crate::specs::Trees::head))]
fn put_head<O: Output>(out: &mut O)
    ensures { Puts (O.said out.old) (O.said out.new) head }
{
    out.put(b"<?xml version=\"1.0\" encoding=\"UTF-8\"?>\n");
}

/// Writes the outermost element.
fn put_root<O: Output>(out: &mut O, archive: &Archive)
    ensures { (whole : Aim) → O.said out.old (spelled Tag.HighSchoolTimetableArchive (spec.archive_labels archive.now) (parts.row (spec.archive_parts archive.now)) []) whole → O.said out.new [] whole }
{
    begin(out, false, Tag::HighSchoolTimetableArchive);
    if let Some(id) = &archive.id {
        attribute(out, Label::Id, &id.text);
    }
    let mut inside = write_if(out, true, Tag::MetaData, &archive.meta_data);
    inside = list(
        out,
        inside,
        Tag::Instances,
        Tag::Instance,
        &archive.instances,
    );
    inside = list(
        out,
        inside,
        Tag::SolutionGroups,
        Tag::SolutionGroup,
        &archive.solution_groups,
    );
    end(out, inside, Tag::HighSchoolTimetableArchive);
}

/// Writes a whole text.
#[tactic(auto, unfolding(crate::specs::Archives::canonical))]
pub(crate) fn put_archive<O: Output>(out: &mut O, archive: &Archive)
    ensures { (whole : Aim) → O.said out.old (spec.canonical archive.now) whole → O.said out.new [] whole }
{
    put_head(out);
    put_root(out, archive);
}
