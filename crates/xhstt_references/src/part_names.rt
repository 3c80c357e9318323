//! The names of an instance that its solutions use.

ghost use Rattle.std.specs.Prelude.{◌≡◌, ◌<◌, ◌^◌, true, length, IfOk};
ghost use Rattle.khe_base.specs.Names.{number_of};
ghost use Rattle.khe_base.specs.Text.{characters};
ghost use Rattle.xhstt_references.specs.Directories.{AreFew, names_in, no_parts};

use crate::directories::Directory;
use crate::names::Names;
use khe_base::{EventId, NoMemory, ResourceId, TimeId};
use std::alloc::Global;
use std::marker::Model;

/// The Ids of an instance's times, resources and events, each found with its number. Contracts see the
/// three lists of Ids.
///
/// It takes no memory where all three are empty, and is small in each case: an archive may have many
/// instances without any of these parts.
#[derive(Drop)]
pub struct InstanceNames {
    tables: Option<Box<PartNames>>,
}

/// The names of each sort of parts.
pub struct PartNames {
    pub times: Names,
    pub resources: Names,
    pub events: Names,
}

// By hand: an exit of a caller then has one call to prove, and not a drop for each field.
impl Drop for PartNames {
    fn drop(self) {
        let PartNames {
            times: _times,
            resources: _resources,
            events: _events,
        } = self;
    }
}

impl Model for InstanceNames {
    ghost use Rattle.std.specs.Option.{option_map_or};
    ghost use Rattle.xhstt_references.specs.Directories.{AreFew, no_parts};
    ghost use Rattle.xhstt_references.specs.declared.part_names.PartNames.{PartNames};

    ghost Value = { PartNames };

    ghost view = { λ i. option_map_or (λ b. b.value) i.tables no_parts };

    ghost invariant = { λ i. AreFew (option_map_or (λ b. b.value) i.tables no_parts) };
}

impl InstanceNames {
    /// The names that solutions use among those of all parts, which are few. The memory of the others is
    /// free again.
    pub fn new(alloc: Global, directory: Directory) -> Result<InstanceNames, NoMemory>
        requires { AreFew (names_in directory) }
        ensures { IfOk result (λ n. n ≡ names_in directory) }
    {
        let parts = directory.into_part_names();
        if parts.are_none() {
            return Ok(InstanceNames { tables: None });
        }
        Ok(InstanceNames {
            tables: Some(Box::new(alloc, parts)?),
        })
    }

    /// The number of the time with the Id that these bytes spell, or `None` where no time has it. It takes the time
    /// of a hash of the Id on average.
    pub(crate) fn time(&self, id: &str) -> Option<u32>
        ensures { result ≡ number_of (characters id.now) self.now.times }
    {
        match &self.tables {
            Some(tables) => found(&tables.times, id),
            None => None,
        }
    }

    /// The number of the resource with the Id that these bytes spell, as `time` finds a time.
    pub(crate) fn resource(&self, id: &str) -> Option<u32>
        ensures { result ≡ number_of (characters id.now) self.now.resources }
    {
        match &self.tables {
            Some(tables) => found(&tables.resources, id),
            None => None,
        }
    }

    /// The number of the event with the Id that these bytes spell, as `time` finds a time.
    pub(crate) fn event(&self, id: &str) -> Option<u32>
        ensures { result ≡ number_of (characters id.now) self.now.events }
    {
        match &self.tables {
            Some(tables) => found(&tables.events, id),
            None => None,
        }
    }
}

impl PartNames {
    /// Whether there are no times, no resources and no events.
    fn are_none(&self) -> bool
        ensures { result ≡ true → self.now ≡ no_parts }
    {
        self.times.len() == 0 && self.resources.len() == 0 && self.events.len() == 0
    }
}

/// The number of a name among few names.
fn found(names: &Names, id: &str) -> Option<u32>
    requires { length names.now < 2 ^ 32 }
    ensures { result ≡ number_of (characters id.now) names.now }
{
    match names.number_spelled(id) {
        Some(number) => Some(number as u32),
        None => None,
    }
}
