//! The resources of parts by their types.

ghost use Rattle.std.specs.Prelude.{IfOk};
ghost use Rattle.khe_instance.specs.ByType.{AreByType};
ghost use Rattle.khe_instance.specs.WellMade.{AreWellMade};

use crate::listing::{no_lists, push_at};
use crate::parts::Parts;
use khe_base::{NoMemory, Seq};
use std::alloc::Global;

/// For each type its resources, ascending. It takes time and memory in proportion to the types and the
/// resources, and no memory where there are no types.
pub(crate) fn by_type(alloc: Global, parts: &Parts) -> Result<Seq<Seq<u32>>, NoMemory>
    requires { AreWellMade parts.now }
    ensures { IfOk result (λ lists. AreByType parts.now lists) }
{
    let mut lists = no_lists(alloc, parts.types as usize)?;
    for (number, resource) in parts.resources.as_slice().iter().enumerate() {
        push_at(&mut lists, resource.rtype, number as u32)?;
    }
    Ok(lists)
}
