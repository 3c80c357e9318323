//! The sets of times of all constraints of an instance, as masks.

ghost use Rattle.std.specs.Prelude.{◌≡◌, ◌<◌, IfOk, Some, length, slice_get};
ghost use Rattle.resource_deviations.specs.Sets.{room_for};

use crate::masks::TimeMasks;
use khe_base::NoMemory;
use khe_instance::Instance;
use std::alloc::Global;
use std::marker::Model;
use timetables::Mask;

/// The sets of times that the constraints of an instance name for resources, as masks. It is made
/// once for an instance, and serves any timetable of it. Contracts see for each constraint the list
/// of its sets, in its order.
#[derive(Drop)]
pub struct ResourceRoom {
    masks: Vec<TimeMasks>,
}

impl Model for ResourceRoom {
    ghost use Rattle.std.specs.Prelude.{List, Bool};

    ghost Value = { List (List (List Bool)) };

    ghost view = { λ r. r.masks.items };
}

impl ResourceRoom {
    /// The room for an instance. It takes time and memory for a bit of each time of each listed set.
    pub fn open(alloc: Global, inst: &Instance) -> Result<ResourceRoom, NoMemory>
        ensures { IfOk result (λ room. room ≡ room_for inst.now) }
    {
        let mut masks = Vec::new(alloc);
        for number in 0..inst.constraints() {
            let rule = &inst.constraint(number).rule;
            masks.push(TimeMasks::new(alloc, rule)?)?;
        }
        Ok(ResourceRoom { masks })
    }

    /// The sets of a constraint.
    pub(crate) fn masks_of(&self, constraint: u32) -> &[Mask]
        requires { constraint < length self.now }
        ensures { slice_get self.now constraint ≡ Some result.now }
    {
        self.masks[constraint as usize].as_slice()
    }
}
