//! The monitors that are served, by resource.

ghost use Rattle.std.specs.Prelude.{◌≡◌, ◌<◌, ◌++◌, ◌∷◌, [], ℕ, if◌then◌else◌, length, replicate, slice_index_or, IfOk, OnOk};
ghost use Rattle.khe_base.specs.declared.numbers.ResourceId.{ResourceId};
ghost use Rattle.khe_instance.specs.declared.points.Point.TheVariants.{Resource};
ghost use Rattle.resource_monitors.specs.Posts.{AreLists, is_served_at};

use crate::kinds::CellKinds;
use khe_base::{MonitorId, NoMemory, Seq};
use khe_instance::{Instance, Monitor, Point};
use std::alloc::Global;

/// A served monitor with its number.
#[derive(Clone, Copy)]
pub struct Post {
    pub number: MonitorId,
    pub monitor: Monitor,
}

/// For each resource the monitors at it that are served. It takes time and memory in proportion to
/// the resources and the monitors.
pub(crate) fn lists_of<K: CellKinds>(
    alloc: Global,
    inst: &Instance,
) -> Result<Vec<Seq<Post>>, NoMemory>
    ensures { IfOk result (λ lists. AreLists K.serves_kind (length inst.now.resources) inst.now.monitors lists.items) }
{
    inst.facts();
    let mut lists = no_lists(alloc, inst.resources())?;
    for k in 0..inst.monitors() {
        let number = MonitorId(k);
        let monitor = inst.monitor(number);
        add_post::<K>(&mut lists, Post { number, monitor })?;
    }
    Ok(lists)
}

fn no_lists(alloc: Global, resources: u32) -> Result<Vec<Seq<Post>>, NoMemory>
    ensures { IfOk result (λ lists. lists.items ≡ replicate resources []) }
{
    let mut lists = Vec::new(alloc);
    for _ in 0..resources {
        lists.push(Seq::new(alloc))?;
    }
    Ok(lists)
}

fn add_post<K: CellKinds>(lists: &mut Vec<Seq<Post>>, post: Post) -> Result<(), NoMemory>
    requires { (r : ResourceId) → post.monitor.point ≡ Resource r → r.0 < length lists.old.items }
    ensures amount { OnOk result (length lists.new.items ≡ length lists.old.items) }
    ensures posts { OnOk result ((r : ℕ) → r < length lists.old.items → slice_index_or lists.new.items r []
        ≡ slice_index_or lists.old.items r [] ++ (if is_served_at K.serves_kind r post.monitor then post ∷ [] else [])) }
{
    let Point::Resource(r) = post.monitor.point else {
        return Ok(());
    };
    if K::serves(post.monitor.kind) {
        lists[r.0 as usize].push(post)?;
    }
    Ok(())
}
