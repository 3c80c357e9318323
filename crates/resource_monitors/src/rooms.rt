//! The sets of times of all constraints of an instance, as masks.

ghost use Rattle.std.specs.Prelude.{◌≡◌, ◌<◌, [], IfOk, Some, length, slice_get, slice_index_or};
ghost use Rattle.resource_monitors.specs.Sets.{has_time, room_for};

use crate::masks::TimeMasks;
use khe_base::NoMemory;
use khe_instance::Instance;
use std::alloc::Global;
use std::marker::Model;
use timetables::Mask;

/// The sets of times that the constraints of an instance name for resources, as masks. It is made
/// once for an instance, and serves any timetable of it. Contracts see for each constraint the list
/// of its sets, in its order.
#[derive(Drop)]
pub(crate) struct TimeSets {
    masks: Vec<TimeMasks>,
}

impl Model for TimeSets {
    ghost use Rattle.std.specs.Prelude.{List, Bool};

    ghost Value = { List (List (List Bool)) };

    ghost view = { λ r. r.masks.items };
}

impl TimeSets {
    /// The room for an instance. It takes time in proportion to listed sets times times, and memory
    /// for a bit of each time of each listed set and of each constraint.
    pub(crate) fn open(alloc: Global, inst: &Instance) -> Result<TimeSets, NoMemory>
        ensures { IfOk result (λ room. room ≡ room_for inst.now) }
    {
        let mut masks = Vec::new(alloc);
        for number in 0..inst.constraints() {
            let rule = &inst.constraint(number).rule;
            masks.push(TimeMasks::new(alloc, rule)?)?;
        }
        Ok(TimeSets { masks })
    }

    /// The sets of a constraint.
    pub(crate) fn masks_of(&self, constraint: u32) -> &[Mask]
        requires { constraint < length self.now }
        ensures { slice_get self.now constraint ≡ Some result.now }
    {
        self.masks[constraint as usize].as_slice()
    }

    /// Whether one of the sets of a constraint has a time. It takes constant time.
    pub(crate) fn has(&self, constraint: u32, time: u32) -> bool
        requires { constraint < length self.now }
        ensures { result ≡ has_time (slice_index_or self.now constraint []) time }
    {
        self.masks[constraint as usize].has(time)
    }
}
