//! Reading an archive from the tree of its text.

ghost use Rattle.std.specs.Prelude.{IfOk};
ghost use Rattle.xhstt_text.specs.Document.{Spelled};
ghost use Rattle.xhstt_text.specs.FlatTable.{IsTable, root_forest};
ghost use Rattle.xhstt_shape.specs.Faults.{IsTold};
ghost use Rattle.xhstt_shape.specs.Shape as spec;
ghost use Rattle.xhstt_shape.specs.WellFormed.{IsInForm, IsWellFormed};

use crate::building::Build;
use crate::faults::ShapeFault;
use crate::records::Archive;
use crate::schema::Row;
use crate::walk::look_at;
use crate::words::Tag;
use fault_tables::UNKNOWN_ELEMENT;
use std::alloc::Global;
use xhstt_text::{Element, Tree};

/// The archive of a tree, by the table of elements, or the first place where the tree leaves the
/// table.
///
/// Elements are walked over in the order of the text. Of one element the first of these is its
/// fault: an attribute that is not in the table, at the first byte of its name; an attribute that
/// is missing, at the `<` of the element; text where elements are to stand, at its first byte that
/// is not white; a fault of a child, from left to right, where a child that is not in the table and
/// a second child where one may stand are faults at that child's `<`; a child that is missing, at
/// the `<` of the element; and a value that is not in form, at its first byte. What stands in a
/// `Report` is not looked at.
///
/// An archive that comes is in form: its numbers are in their ranges, its roles are not empty and have
/// no white at their ends, an event resource without a reference has a role and a type, and what a
/// constraint applies to has the form that its kind asks for. Where the tree is one that its bytes
/// spell, as the reader of texts gives it, the archive is well formed: its texts also have only
/// characters that a text of the grammar may have.
///
/// Memory is taken in proportion to the tree, and where it is refused, `NoMemory` comes. The time
/// is linear in the tree.
pub fn archive(alloc: Global, tree: &Tree<'_>) -> Result<Archive, ShapeFault>
    requires { IsTable tree.now }
    ensures told { IsTold result (spec.shape_of_tree tree.now) }
    ensures in_form { IfOk result IsInForm }
    ensures well_formed { IfOk result (λ a. Spelled tree.now.bytes.now (root_forest tree.now) → IsWellFormed a) }
{
    let root = tree.root();
    archive_of(alloc, &root)
}

/// The archive of an outermost element, or its first fault.
fn archive_of(alloc: Global, root: &Element<'_, '_>) -> Result<Archive, ShapeFault>
    ensures { IsTold result (spec.shape root.now) }
{
    if !root.is_named(Tag::HighSchoolTimetableArchive.word()) {
        return Err(ShapeFault::Bad {
            kind: UNKNOWN_ELEMENT,
            at: root.at(),
        });
    }
    look_at(alloc, Row::Archive, root)?;
    Ok(Archive::build(alloc, root)?)
}
