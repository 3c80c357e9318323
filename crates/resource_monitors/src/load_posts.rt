//! The monitors that are served, by resource.

ghost use Rattle.std.specs.Prelude.{◌≡◌, ◌<◌, ◌++◌, ◌∷◌, [], ℕ, if◌then◌else◌, length, replicate, slice_index_or, IfOk, OnOk};
ghost use Rattle.khe_base.specs.declared.numbers.ResourceId.{ResourceId};
ghost use Rattle.khe_instance.specs.declared.points.Point.TheVariants.{Resource};
ghost use Rattle.resource_monitors.specs.Posts.{AreLists, is_served_at};
ghost use Rattle.resource_monitors.specs.Loads.{is_on_workload};

use crate::posts::Post;
use khe_base::{MonitorId, NoMemory, Seq};
use khe_instance::{Instance, Kind, Point};
use std::alloc::Global;

/// For each resource the monitors on its workload. It takes time and memory in proportion to the
/// resources and the monitors.
pub(crate) fn lists_of(alloc: Global, inst: &Instance) -> Result<Vec<Seq<Post>>, NoMemory>
    ensures { IfOk result (λ lists. AreLists is_on_workload (length inst.now.resources) inst.now.monitors lists.items) }
{
    inst.facts();
    let mut lists = no_lists(alloc, inst.resources())?;
    for k in 0..inst.monitors() {
        let number = MonitorId(k);
        let monitor = inst.monitor(number);
        add_post(&mut lists, Post { number, monitor })?;
    }
    Ok(lists)
}

fn no_lists(alloc: Global, resources: u32) -> Result<Vec<Seq<Post>>, NoMemory>
    ensures { IfOk result (λ lists. lists.items ≡ replicate resources []) }
{
    let mut lists = Vec::new(alloc);
    for _ in 0..resources {
        lists.push(Seq::new(alloc))?;
    }
    Ok(lists)
}

fn add_post(lists: &mut Vec<Seq<Post>>, post: Post) -> Result<(), NoMemory>
    requires { (r : ResourceId) → post.monitor.point ≡ Resource r → r.0 < length lists.old.items }
    ensures amount { OnOk result (length lists.new.items ≡ length lists.old.items) }
    ensures posts { OnOk result ((r : ℕ) → r < length lists.old.items → slice_index_or lists.new.items r []
        ≡ slice_index_or lists.old.items r [] ++ (if is_served_at is_on_workload r post.monitor then post ∷ [] else [])) }
{
    let Point::Resource(r) = post.monitor.point else {
        return Ok(());
    };
    if post.monitor.kind == Kind::LimitWorkload {
        lists[r.0 as usize].push(post)?;
    }
    Ok(())
}
