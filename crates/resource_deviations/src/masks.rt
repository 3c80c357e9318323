//! The sets of times of one constraint, as masks.

ghost use Rattle.std.specs.Prelude.{◌≡◌, ◌∷◌, [], IfOk};
ghost use Rattle.resource_deviations.specs.Sets.{sets_of};

use khe_base::{IdSet, NoMemory};
use khe_instance::Rule;
use std::alloc::Global;
use std::marker::Model;
use timetables::Mask;

/// The sets of times that a constraint names for a resource, as masks that are made once for all
/// its monitors. Contracts see the list of the sets, in the order of the constraint.
#[derive(Drop)]
pub(crate) struct TimeMasks {
    masks: Vec<Mask>,
}

impl Model for TimeMasks {
    ghost use Rattle.std.specs.Prelude.{List, Bool};

    ghost Value = { List (List Bool) };

    ghost view = { λ m. m.masks.items };
}

impl TimeMasks {
    /// The sets of a rule: the times that AvoidUnavailableTimes names, or the time groups that
    /// LimitIdleTimes, ClusterBusyTimes or LimitBusyTimes lists; all other rules have none. It
    /// takes time in proportion to sets times times, and memory for a bit for each of these.
    pub(crate) fn new(alloc: Global, rule: &Rule) -> Result<TimeMasks, NoMemory>
        ensures { IfOk result (λ m. m ≡ sets_of rule.now) }
    {
        let masks = match rule {
            Rule::AvoidUnavailableTimes { times } => single_mask(alloc, times)?,
            Rule::LimitIdleTimes { groups, .. } => masks_of(alloc, groups.as_slice())?,
            Rule::ClusterBusyTimes { groups, .. } => masks_of(alloc, groups.as_slice())?,
            Rule::LimitBusyTimes { groups, .. } => masks_of(alloc, groups.as_slice())?,
            _ => Vec::new(alloc),
        };
        Ok(TimeMasks { masks })
    }

    pub(crate) fn as_slice(&self) -> &[Mask]
        ensures { result.now ≡ self.now }
    {
        self.masks.as_slice()
    }
}

fn single_mask(alloc: Global, times: &IdSet) -> Result<Vec<Mask>, NoMemory>
    ensures { IfOk result (λ m. m.items ≡ times.now ∷ []) }
{
    let mut masks = Vec::new(alloc);
    masks.push(Mask::new(alloc, times)?)?;
    Ok(masks)
}

fn masks_of(alloc: Global, groups: &[IdSet]) -> Result<Vec<Mask>, NoMemory>
    ensures { IfOk result (λ m. m.items ≡ groups.now) }
{
    let mut masks = Vec::new(alloc);
    for group in groups {
        masks.push(Mask::new(alloc, group)?)?;
    }
    Ok(masks)
}
