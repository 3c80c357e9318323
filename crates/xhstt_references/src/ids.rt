//! The trait of what has an Id.

ghost use Rattle.xhstt_shape.specs.declared.records.Name.{Name};
ghost use Rattle.std.specs.Prelude.{◌≡◌};

use xhstt_shape::{
    EventGroup, Name, RawConstraint, RawEvent, RawInstance, RawResource, ResourceGroup,
    ResourceType, SolutionGroup, Time, TimeGroup,
};

/// What has an Id.
pub(crate) trait HasId {
    ghost id: { Self → Name };

    /// Its Id, in constant time.
    fn id(&self) -> &Name
        ensures { result.now ≡ id self.now };
}

impl HasId for RawInstance {
    ghost id = { λ i. i.id };

    fn id(&self) -> &Name {
        &self.id
    }
}

impl HasId for TimeGroup {
    ghost id = { λ g. g.id };

    fn id(&self) -> &Name {
        &self.id
    }
}

impl HasId for Time {
    ghost id = { λ t. t.id };

    fn id(&self) -> &Name {
        &self.id
    }
}

impl HasId for ResourceType {
    ghost id = { λ t. t.id };

    fn id(&self) -> &Name {
        &self.id
    }
}

impl HasId for ResourceGroup {
    ghost id = { λ g. g.id };

    fn id(&self) -> &Name {
        &self.id
    }
}

impl HasId for RawResource {
    ghost id = { λ r. r.id };

    fn id(&self) -> &Name {
        &self.id
    }
}

impl HasId for EventGroup {
    ghost id = { λ g. g.id };

    fn id(&self) -> &Name {
        &self.id
    }
}

impl HasId for RawEvent {
    ghost id = { λ e. e.id };

    fn id(&self) -> &Name {
        &self.id
    }
}

impl HasId for RawConstraint {
    ghost id = { λ c. c.id };

    fn id(&self) -> &Name {
        &self.id
    }
}

impl HasId for SolutionGroup {
    ghost id = { λ g. g.id };

    fn id(&self) -> &Name {
        &self.id
    }
}
