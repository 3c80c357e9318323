//! The domains of the demands of a meet.

ghost use Rattle.std.specs.Prelude.{◌≡◌, ◌<◌, ◌≤◌, ◌+◌, ◌^◌, ℕ, length, Some};
ghost use Rattle.khe_told.specs.Fits.{AreTold};
ghost use Rattle.khe_told.specs.Slots.{slot_at};
ghost use Rattle.hall_report.specs.Kept.{number_of};
ghost use Rattle.hall_report.specs.Listing.{IsReadable};
ghost use Rattle.hall_report.specs.Picks.{domain_in, pick_starts, pick_resources};
ghost use Rattle.hall_report.specs.Renewing.{IsSpanOf, IsRenewed, AreApart, AreWritable, HasStartEntries};
ghost use Rattle.hall_report.specs.Renewing.{HasResourceEntries};

use crate::resource_sets::first_entry;
use crate::units::Units;
use demand_matching::{Domain, Matching, Pick};
use khe_base::{EventId, MeetId, TaskId};
use khe_instance::Instance;
use khe_told::{Span, Told};

/// Which set has the starts of each event and duration, and which the resources of each event
/// resource.
#[derive(Drop)]
pub(crate) struct Picks {
    pub(crate) starts: Vec<u32>,
    pub(crate) resources: Vec<u32>,
}

impl Picks {
    // The times at which a meet may start.
    fn starts(&self, inst: &Instance, event: EventId, span: Span) -> Pick
        requires entries { HasStartEntries inst.now self.now.starts.items }
        requires event { event.0 < length inst.now.events }
        requires span { IsSpanOf inst.now event.0 span.duration }
        ensures { result ≡ pick_starts inst.now.events self.now.starts.items event.0 span }
    {
        inst.facts();
        match span.start {
            Some(time) => Pick::One(time.0),
            None => {
                let entry = inst.event(event).first_meet as usize + span.duration as usize - 1;
                Pick::Set(self.starts[entry])
            }
        }
    }

    // The resources that a place of a meet may have.
    fn resources(&self, inst: &Instance, told: &Told, meet: MeetId, place: u32) -> Pick
        requires entries { HasResourceEntries inst.now self.now.resources.items }
        requires told { AreTold inst.now told.now }
        requires meet { meet.0 < length told.now }
        requires place { place < length (slot_at told.now meet.0).given }
        ensures { result ≡ pick_resources inst.now.events self.now.resources.items (slot_at told.now meet.0) place }
    {
        inst.facts();
        let event = told.event(meet);
        match told.resource(TaskId { meet, place }) {
            Some(resource) => Pick::One(resource.0),
            None => {
                let entry = first_entry(inst, event) as usize + place as usize;
                Pick::Set(self.resources[entry])
            }
        }
    }

    // What the demand of a meet at a place and an offset may have, or `None` where the slot is free.
    fn domain(
        &self,
        inst: &Instance,
        told: &Told,
        meet: MeetId,
        place: u32,
        offset: u32,
    ) -> Option<Domain>
        requires starts { HasStartEntries inst.now self.now.starts.items }
        requires resources { HasResourceEntries inst.now self.now.resources.items }
        requires told { AreTold inst.now told.now }
        requires meet { meet.0 < length told.now }
        requires place { place < length (slot_at told.now meet.0).given }
        ensures { result ≡ domain_in inst.now.events self.now.starts.items self.now.resources.items
            (slot_at told.now meet.0) place offset }
    {
        inst.facts();
        let event = told.event(meet);
        let Some(span) = told.span(meet) else {
            return None;
        };
        Some(Domain {
            times: self.starts(inst, event, span),
            shift: offset,
            resources: self.resources(inst, told, meet, place),
        })
    }
}

/// What the domains of demands are chosen by: a timetable of an instance, and which sets belong to what.
#[derive(Clone, Copy)]
pub(crate) struct Choices<'a> {
    pub(crate) inst: &'a Instance,
    pub(crate) told: &'a Told,
    pub(crate) picks: &'a Picks,
}

/// Gives the demands of a meet at these places their domains, or takes them away where its slot is
/// free. It changes one domain for each place and each time that the meet lasts, and takes no
/// memory.
pub(crate) fn renew(
    choices: &Choices<'_>,
    units: &Units,
    matching: &mut Matching,
    meet: MeetId,
    duration: u32,
    from: u32,
    end: u32,
)
    requires starts { HasStartEntries choices.now.inst.now choices.now.picks.now.starts.items }
    requires resources { HasResourceEntries choices.now.inst.now choices.now.picks.now.resources.items }
    requires told { AreTold choices.now.inst.now choices.now.told.now }
    requires meet { meet.0 < length choices.now.told.now }
    requires places { from ≤ end }
    requires end { end ≤ length (slot_at choices.now.told.now meet.0).given }
    requires readable { IsReadable units.now meet.0 end duration }
    requires apart { AreApart (number_of units.now meet.0) from end duration }
    requires writable { AreWritable matching.old (number_of units.now meet.0)
        (domain_in choices.now.inst.now.events choices.now.picks.now.starts.items choices.now.picks.now.resources.items
        (slot_at choices.now.told.now meet.0)) from end duration }
    ensures { IsRenewed matching.old matching.new (number_of units.now meet.0)
        (domain_in choices.now.inst.now.events choices.now.picks.now.starts.items choices.now.picks.now.resources.items
        (slot_at choices.now.told.now meet.0)) from end duration }
{
    let mut unit = units.first(meet);
    for offset in 0..duration {
        let first = units.first_demand(unit);
        renew_unit(choices, matching, meet, first, offset, from, end);
        unit = units.next(unit);
    }
}

// Those of one offset, of which the first has this number.
fn renew_unit(
    choices: &Choices<'_>,
    matching: &mut Matching,
    meet: MeetId,
    first: u32,
    offset: u32,
    from: u32,
    end: u32,
)
    requires starts { HasStartEntries choices.now.inst.now choices.now.picks.now.starts.items }
    requires resources { HasResourceEntries choices.now.inst.now choices.now.picks.now.resources.items }
    requires told { AreTold choices.now.inst.now choices.now.told.now }
    requires meet { meet.0 < length choices.now.told.now }
    requires places { from ≤ end }
    requires end { end ≤ length (slot_at choices.now.told.now meet.0).given }
    requires number { (k : ℕ) → k < end → first + k < 2 ^ 32 }
    requires writable { AreWritable matching.old (λ k o. first + k)
        (λ k o. domain_in choices.now.inst.now.events choices.now.picks.now.starts.items
        choices.now.picks.now.resources.items (slot_at choices.now.told.now meet.0) k offset) from end 1 }
    ensures { IsRenewed matching.old matching.new (λ k o. first + k)
        (λ k o. domain_in choices.now.inst.now.events choices.now.picks.now.starts.items
        choices.now.picks.now.resources.items (slot_at choices.now.told.now meet.0) k offset) from end 1 }
{
    for place in from..end {
        let domain = choices
            .picks
            .domain(choices.inst, choices.told, meet, place, offset);
        matching.set_domain(first + place, domain);
    }
}
