//! Solutions by their numbers, which are counted over all groups of an archive.

ghost use Rattle.std.specs.Prelude.{◌≡◌, Ok};
ghost use Rattle.xhstt_resolve.specs.Resolved as resolving;
ghost use Rattle.xhstt_shape.specs.WellFormed.{IsInForm};

use crate::worked::{Worked, instance_of, read, state_of};
use khe_base::TimeId;
use khe_instance::Plain;
use std::alloc::Global;
use std::test::Fail;

/// An archive of two groups. Its first solution starts the event at the third time, its second at the
/// second time, and its third does not start it.
const GROUPS: &str = r#"<HighSchoolTimetableArchive>
<Instances><Instance Id="J">
<Times><Time Id="t0"/><Time Id="t1"/><Time Id="t2"/></Times>
<Events><Event Id="E"><Duration>1</Duration></Event></Events>
</Instance></Instances>
<SolutionGroups>
<SolutionGroup Id="G">
<Solution Reference="J"><Events><Event Reference="E"><Time Reference="t2"/></Event></Events></Solution>
</SolutionGroup>
<SolutionGroup Id="H">
<Solution Reference="J"><Events><Event Reference="E"><Time Reference="t1"/></Event></Events></Solution>
<Solution Reference="J"/>
</SolutionGroup>
</SolutionGroups>
</HighSchoolTimetableArchive>
"#;

/// Whether the solution with this number has one meet, which starts so.
fn starts_at(alloc: Global, worked: &Worked, number: u32, start: Option<TimeId>) -> bool
    requires formed { IsInForm worked.now.archive }
    requires resolved { resolving.resolved worked.now.archive ≡ Ok worked.now.resolved }
{
    let Some(inst) = instance_of(&worked.resolved, number) else {
        return false;
    };
    let Some(plain) = state_of(alloc, worked, inst, number) else {
        return false;
    };
    let is_so = has_one_meet_at(&plain, start);
    drop(plain);
    is_so
}

/// Whether a state has one meet, which starts so.
fn has_one_meet_at(plain: &Plain, start: Option<TimeId>) -> bool {
    match plain.meets.as_slice() {
        [meet] => meet.start == start,
        _ => false,
    }
}

/// Whether the solution of the archive of two groups with this number starts so, or nothing where the
/// archive has a fault.
fn starts_in_groups_at(alloc: Global, number: u32, start: Option<TimeId>) -> Option<bool> {
    let worked = read(alloc, GROUPS)?;
    let is_so = starts_at(alloc, &worked, number, start);
    drop(worked);
    Some(is_so)
}

#[test]
fn solutions_are_counted_over_groups(rt: HostRuntime) -> Result<(), Fail> {
    assert!(rt; starts_in_groups_at(rt.alloc(), 0, Some(TimeId(2))).ok_or("a fault")?);
    assert!(rt; starts_in_groups_at(rt.alloc(), 1, Some(TimeId(1))).ok_or("a fault")?);
    assert!(rt; starts_in_groups_at(rt.alloc(), 2, None).ok_or("a fault")?);
    Ok(())
}
