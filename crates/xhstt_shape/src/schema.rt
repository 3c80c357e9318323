//! The table of elements: which children, attributes and texts each element may have.

ghost use Rattle.std.specs.Prelude.{◌≡◌};
ghost use Rattle.xhstt_shape.specs.Schema as schema;

use crate::words::{Label, Tag};
use khe_base::limits::{GREATEST_BOUND, NUMBER};
use khe_instance::Kind;

/// How often a child may stand in its element.
#[derive(Clone, Copy)]
pub enum Mark {
    /// Exactly once.
    Once,
    /// At most once.
    AtMostOnce,
    /// Any number of times.
    Many,
}

/// The rows of the table of elements: what one element may have.
#[derive(Clone, Copy)]
pub enum Row {
    /// The outermost element.
    Archive,
    /// `MetaData`, at any of its places.
    MetaData,
    /// The instances of an archive.
    Instances,
    /// An instance.
    Instance,
    /// The times of an instance.
    Times,
    /// The weeks, days and other time groups of an instance.
    TimeGroups,
    /// An element with an Id that may have a name and no more.
    Named,
    /// A time of an instance.
    Time,
    /// The resources of an instance.
    Resources,
    /// The resource types of an instance.
    ResourceTypes,
    /// The resource groups of an instance.
    ResourceGroups,
    /// A resource group of an instance.
    ResourceGroup,
    /// A resource of an instance.
    Resource,
    /// The events of an instance.
    Events,
    /// The courses and event groups of an instance.
    EventGroups,
    /// An event of an instance.
    Event,
    /// The event resources of an event.
    EventResources,
    /// An event resource with a preassigned resource.
    EventResource,
    /// An event resource without one, which has to say its role and type.
    OpenResource,
    /// The constraints of an instance.
    Constraints,
    /// A constraint of a kind.
    Constraint(Kind),
    /// Event groups and events that a constraint applies to.
    EventApplies,
    /// Event groups that a constraint applies to.
    GroupApplies,
    /// Resource groups and resources that a constraint applies to.
    ResourceApplies,
    /// Pairs of events that a constraint applies to.
    PairApplies,
    /// Pairs of events.
    EventPairs,
    /// A pair of events, and how far apart they are to be.
    EventPair,
    /// The time groups over which events are spread.
    Spreads,
    /// A time group over which events are spread.
    Spread,
    /// The solution groups of an archive.
    SolutionGroups,
    /// A solution group.
    SolutionGroup,
    /// A solution.
    Solution,
    /// What a solution says of events.
    Entries,
    /// What a solution says of one event, or of a part of it.
    Entry,
    /// The resources that an entry gives.
    GivenResources,
    /// A resource that an entry gives.
    Given,
    /// References to time groups.
    TimeGroupReferences,
    /// References to resource groups.
    ResourceGroupReferences,
    /// References to event groups.
    EventGroupReferences,
    /// References to times.
    TimeReferences,
    /// References to events.
    EventReferences,
    /// References to resources.
    ResourceReferences,
    /// A reference.
    Reference,
    /// A text.
    Text,
    /// A number from 0 to 1,000,000.
    Number,
    /// A number from 1 to 1,000,000.
    Duration,
    /// A number from 0 to 2,147,483,647.
    Bound,
    /// `true` or `false`.
    Truth,
    /// `Linear`, `Quadratic` or `Step`.
    Function,
    /// A text that is not empty, but for white at its ends.
    Role,
    /// An element that is passed over unread.
    Anything,
}

/// What stands in an element.
#[derive(Clone, Copy)]
pub enum Content {
    /// Elements, and no text.
    Elements,
    /// A text, taken whole.
    Text,
    /// A number in a range.
    Number { least: u32, greatest: u32 },
    /// `true` or `false`.
    Truth,
    /// The name of a cost function.
    Function,
    /// A text without white at its ends, which is not empty.
    Role,
    /// Anything, which is not looked at.
    Anything,
}

/// An attribute that an element may have, and whether it must.
#[derive(Clone, Copy)]
pub struct AllowedAttribute {
    pub label: Label,
    pub required: bool,
}

/// A child that an element may have: its name, how often it stands there, and its own row.
#[derive(Clone, Copy)]
pub struct Child {
    pub tag: Tag,
    pub mark: Mark,
    pub row: Row,
}

/// A child that stands exactly once.
macro_rules! once {
    ($tag:expr, $row:expr) => {
        Child {
            tag: $tag,
            mark: Mark::Once,
            row: $row,
        }
    };
}

/// A child that stands at most once.
macro_rules! at_most_once {
    ($tag:expr, $row:expr) => {
        Child {
            tag: $tag,
            mark: Mark::AtMostOnce,
            row: $row,
        }
    };
}

/// A child that stands any number of times.
macro_rules! many {
    ($tag:expr, $row:expr) => {
        Child {
            tag: $tag,
            mark: Mark::Many,
            row: $row,
        }
    };
}

const REQUIRED_ID: &[AllowedAttribute] = &[AllowedAttribute {
    label: Label::Id,
    required: true,
}];

const REQUIRED_REFERENCE: &[AllowedAttribute] = &[AllowedAttribute {
    label: Label::Reference,
    required: true,
}];

impl Row {
    /// The attributes of an element of this row, in the order of the table.
    #[tactic(auto, unfolding(crate::specs::Schema::attributes))]
    pub fn attributes(self) -> &'static [AllowedAttribute]
        ensures { result.now ≡ schema.attributes self }
    {
        match self {
            Row::Archive => &[AllowedAttribute {
                label: Label::Id,
                required: false,
            }],
            Row::Event => &[
                AllowedAttribute {
                    label: Label::Id,
                    required: true,
                },
                AllowedAttribute {
                    label: Label::Color,
                    required: false,
                },
            ],
            Row::EventResource | Row::OpenResource => &[AllowedAttribute {
                label: Label::Reference,
                required: false,
            }],
            Row::Instance
            | Row::Named
            | Row::Time
            | Row::ResourceGroup
            | Row::Resource
            | Row::SolutionGroup
            | Row::Constraint(_) => REQUIRED_ID,
            Row::Spread | Row::Solution | Row::Entry | Row::Given | Row::Reference =>
                REQUIRED_REFERENCE,
            Row::MetaData
            | Row::Instances
            | Row::Times
            | Row::TimeGroups
            | Row::Resources
            | Row::ResourceTypes
            | Row::ResourceGroups
            | Row::Events
            | Row::EventGroups
            | Row::EventResources
            | Row::Constraints
            | Row::EventApplies
            | Row::GroupApplies
            | Row::ResourceApplies
            | Row::PairApplies
            | Row::EventPairs
            | Row::EventPair
            | Row::Spreads
            | Row::SolutionGroups
            | Row::Entries
            | Row::GivenResources
            | Row::TimeGroupReferences
            | Row::ResourceGroupReferences
            | Row::EventGroupReferences
            | Row::TimeReferences
            | Row::EventReferences
            | Row::ResourceReferences
            | Row::Text
            | Row::Number
            | Row::Duration
            | Row::Bound
            | Row::Truth
            | Row::Function
            | Row::Role
            | Row::Anything => &[],
        }
    }

    /// The children of an element of this row, in the order of the table.
    #[tactic(auto, unfolding(crate::specs::Schema::children))]
    pub fn children(self) -> &'static [Child]
        ensures { result.now ≡ schema.children self }
    {
        match self {
            Row::Archive => &[
                at_most_once!(Tag::MetaData, Row::MetaData),
                at_most_once!(Tag::Instances, Row::Instances),
                at_most_once!(Tag::SolutionGroups, Row::SolutionGroups),
            ],
            Row::MetaData => &[
                at_most_once!(Tag::Name, Row::Text),
                at_most_once!(Tag::Contributor, Row::Text),
                at_most_once!(Tag::Date, Row::Text),
                at_most_once!(Tag::Country, Row::Text),
                at_most_once!(Tag::Description, Row::Text),
                at_most_once!(Tag::Publication, Row::Text),
                at_most_once!(Tag::Remarks, Row::Text),
            ],
            Row::Instances => &[many!(Tag::Instance, Row::Instance)],
            Row::Instance => &[
                at_most_once!(Tag::MetaData, Row::MetaData),
                at_most_once!(Tag::Times, Row::Times),
                at_most_once!(Tag::Resources, Row::Resources),
                at_most_once!(Tag::Events, Row::Events),
                at_most_once!(Tag::Constraints, Row::Constraints),
            ],
            Row::Times => &[
                at_most_once!(Tag::TimeGroups, Row::TimeGroups),
                many!(Tag::Time, Row::Time),
            ],
            Row::TimeGroups => &[
                many!(Tag::Week, Row::Named),
                many!(Tag::Day, Row::Named),
                many!(Tag::TimeGroup, Row::Named),
            ],
            Row::Named => &[at_most_once!(Tag::Name, Row::Text)],
            Row::Time => &[
                at_most_once!(Tag::Name, Row::Text),
                at_most_once!(Tag::Week, Row::Reference),
                at_most_once!(Tag::Day, Row::Reference),
                at_most_once!(Tag::TimeGroups, Row::TimeGroupReferences),
            ],
            Row::Resources => &[
                at_most_once!(Tag::ResourceTypes, Row::ResourceTypes),
                at_most_once!(Tag::ResourceGroups, Row::ResourceGroups),
                many!(Tag::Resource, Row::Resource),
            ],
            Row::ResourceTypes => &[many!(Tag::ResourceType, Row::Named)],
            Row::ResourceGroups => &[many!(Tag::ResourceGroup, Row::ResourceGroup)],
            Row::ResourceGroup => &[
                at_most_once!(Tag::Name, Row::Text),
                once!(Tag::ResourceType, Row::Reference),
            ],
            Row::Resource => &[
                at_most_once!(Tag::Name, Row::Text),
                once!(Tag::ResourceType, Row::Reference),
                at_most_once!(Tag::ResourceGroups, Row::ResourceGroupReferences),
            ],
            Row::Events => &[
                at_most_once!(Tag::EventGroups, Row::EventGroups),
                many!(Tag::Event, Row::Event),
            ],
            Row::EventGroups => &[
                many!(Tag::Course, Row::Named),
                many!(Tag::EventGroup, Row::Named),
            ],
            Row::Event => &[
                at_most_once!(Tag::Name, Row::Text),
                once!(Tag::Duration, Row::Duration),
                at_most_once!(Tag::Workload, Row::Number),
                at_most_once!(Tag::Course, Row::Reference),
                at_most_once!(Tag::Time, Row::Reference),
                at_most_once!(Tag::Resources, Row::EventResources),
                at_most_once!(Tag::ResourceGroups, Row::ResourceGroupReferences),
                at_most_once!(Tag::EventGroups, Row::EventGroupReferences),
            ],
            Row::EventResources => &[many!(Tag::Resource, Row::EventResource)],
            Row::EventResource => &[
                at_most_once!(Tag::Role, Row::Role),
                at_most_once!(Tag::ResourceType, Row::Reference),
                at_most_once!(Tag::Workload, Row::Number),
            ],
            Row::OpenResource => &[
                once!(Tag::Role, Row::Role),
                once!(Tag::ResourceType, Row::Reference),
                at_most_once!(Tag::Workload, Row::Number),
            ],
            Row::Constraints => &[
                many!(
                    Tag::Constraint(Kind::AssignTime),
                    Row::Constraint(Kind::AssignTime)
                ),
                many!(
                    Tag::Constraint(Kind::AssignResource),
                    Row::Constraint(Kind::AssignResource)
                ),
                many!(
                    Tag::Constraint(Kind::SplitEvents),
                    Row::Constraint(Kind::SplitEvents)
                ),
                many!(
                    Tag::Constraint(Kind::DistributeSplitEvents),
                    Row::Constraint(Kind::DistributeSplitEvents)
                ),
                many!(
                    Tag::Constraint(Kind::PreferTimes),
                    Row::Constraint(Kind::PreferTimes)
                ),
                many!(
                    Tag::Constraint(Kind::PreferResources),
                    Row::Constraint(Kind::PreferResources)
                ),
                many!(
                    Tag::Constraint(Kind::AvoidSplitAssignments),
                    Row::Constraint(Kind::AvoidSplitAssignments)
                ),
                many!(
                    Tag::Constraint(Kind::SpreadEvents),
                    Row::Constraint(Kind::SpreadEvents)
                ),
                many!(
                    Tag::Constraint(Kind::LinkEvents),
                    Row::Constraint(Kind::LinkEvents)
                ),
                many!(
                    Tag::Constraint(Kind::OrderEvents),
                    Row::Constraint(Kind::OrderEvents)
                ),
                many!(
                    Tag::Constraint(Kind::AvoidClashes),
                    Row::Constraint(Kind::AvoidClashes)
                ),
                many!(
                    Tag::Constraint(Kind::AvoidUnavailableTimes),
                    Row::Constraint(Kind::AvoidUnavailableTimes)
                ),
                many!(
                    Tag::Constraint(Kind::LimitIdleTimes),
                    Row::Constraint(Kind::LimitIdleTimes)
                ),
                many!(
                    Tag::Constraint(Kind::ClusterBusyTimes),
                    Row::Constraint(Kind::ClusterBusyTimes)
                ),
                many!(
                    Tag::Constraint(Kind::LimitBusyTimes),
                    Row::Constraint(Kind::LimitBusyTimes)
                ),
                many!(
                    Tag::Constraint(Kind::LimitWorkload),
                    Row::Constraint(Kind::LimitWorkload)
                ),
            ],
            Row::Constraint(kind) => constraint_children(kind),
            Row::EventApplies => &[
                at_most_once!(Tag::EventGroups, Row::EventGroupReferences),
                at_most_once!(Tag::Events, Row::EventReferences),
            ],
            Row::GroupApplies => &[at_most_once!(Tag::EventGroups, Row::EventGroupReferences)],
            Row::ResourceApplies => &[
                at_most_once!(Tag::ResourceGroups, Row::ResourceGroupReferences),
                at_most_once!(Tag::Resources, Row::ResourceReferences),
            ],
            Row::PairApplies => &[at_most_once!(Tag::EventPairs, Row::EventPairs)],
            Row::EventPairs => &[many!(Tag::EventPair, Row::EventPair)],
            Row::EventPair => &[
                once!(Tag::FirstEvent, Row::Reference),
                once!(Tag::SecondEvent, Row::Reference),
                at_most_once!(Tag::MinSeparation, Row::Number),
                at_most_once!(Tag::MaxSeparation, Row::Bound),
            ],
            Row::Spreads => &[many!(Tag::TimeGroup, Row::Spread)],
            Row::Spread => &[
                at_most_once!(Tag::Minimum, Row::Number),
                at_most_once!(Tag::Maximum, Row::Bound),
            ],
            Row::SolutionGroups => &[many!(Tag::SolutionGroup, Row::SolutionGroup)],
            Row::SolutionGroup => &[
                at_most_once!(Tag::MetaData, Row::MetaData),
                many!(Tag::Solution, Row::Solution),
            ],
            Row::Solution => &[
                at_most_once!(Tag::Description, Row::Text),
                at_most_once!(Tag::RunningTime, Row::Text),
                at_most_once!(Tag::Events, Row::Entries),
                at_most_once!(Tag::Report, Row::Anything),
            ],
            Row::Entries => &[many!(Tag::Event, Row::Entry)],
            Row::Entry => &[
                at_most_once!(Tag::Duration, Row::Duration),
                at_most_once!(Tag::Time, Row::Reference),
                at_most_once!(Tag::Resources, Row::GivenResources),
            ],
            Row::GivenResources => &[many!(Tag::Resource, Row::Given)],
            Row::Given => &[at_most_once!(Tag::Role, Row::Role)],
            Row::TimeGroupReferences => &[many!(Tag::TimeGroup, Row::Reference)],
            Row::ResourceGroupReferences => &[many!(Tag::ResourceGroup, Row::Reference)],
            Row::EventGroupReferences => &[many!(Tag::EventGroup, Row::Reference)],
            Row::TimeReferences => &[many!(Tag::Time, Row::Reference)],
            Row::EventReferences => &[many!(Tag::Event, Row::Reference)],
            Row::ResourceReferences => &[many!(Tag::Resource, Row::Reference)],
            Row::Reference
            | Row::Text
            | Row::Number
            | Row::Duration
            | Row::Bound
            | Row::Truth
            | Row::Function
            | Row::Role
            | Row::Anything => &[],
        }
    }

    /// What stands in an element of this row.
    #[tactic(auto, unfolding(crate::specs::Schema::content))]
    pub fn content(self) -> Content
        ensures { result ≡ schema.content self }
    {
        match self {
            Row::Text => Content::Text,
            Row::Number => Content::Number {
                least: 0,
                greatest: NUMBER,
            },
            Row::Duration => Content::Number {
                least: 1,
                greatest: NUMBER,
            },
            Row::Bound => Content::Number {
                least: 0,
                greatest: GREATEST_BOUND,
            },
            Row::Truth => Content::Truth,
            Row::Function => Content::Function,
            Row::Role => Content::Role,
            Row::Anything => Content::Anything,
            Row::Archive
            | Row::MetaData
            | Row::Instances
            | Row::Instance
            | Row::Times
            | Row::TimeGroups
            | Row::Named
            | Row::Time
            | Row::Resources
            | Row::ResourceTypes
            | Row::ResourceGroups
            | Row::ResourceGroup
            | Row::Resource
            | Row::Events
            | Row::EventGroups
            | Row::Event
            | Row::EventResources
            | Row::EventResource
            | Row::OpenResource
            | Row::Constraints
            | Row::Constraint(_)
            | Row::EventApplies
            | Row::GroupApplies
            | Row::ResourceApplies
            | Row::PairApplies
            | Row::EventPairs
            | Row::EventPair
            | Row::Spreads
            | Row::Spread
            | Row::SolutionGroups
            | Row::SolutionGroup
            | Row::Solution
            | Row::Entries
            | Row::Entry
            | Row::GivenResources
            | Row::Given
            | Row::TimeGroupReferences
            | Row::ResourceGroupReferences
            | Row::EventGroupReferences
            | Row::TimeReferences
            | Row::EventReferences
            | Row::ResourceReferences
            | Row::Reference => Content::Elements,
        }
    }
}

/// The children of a constraint of this kind, in the order of the table.
#[tactic(auto, unfolding(crate::specs::Schema::constraint_children))]
fn constraint_children(kind: Kind) -> &'static [Child]
    ensures { result.now ≡ schema.constraint_children kind }
{
    match kind {
        Kind::AssignTime => &[
            at_most_once!(Tag::Name, Row::Text),
            once!(Tag::Required, Row::Truth),
            once!(Tag::Weight, Row::Number),
            once!(Tag::CostFunction, Row::Function),
            once!(Tag::AppliesTo, Row::EventApplies),
        ],
        Kind::AssignResource => &[
            at_most_once!(Tag::Name, Row::Text),
            once!(Tag::Required, Row::Truth),
            once!(Tag::Weight, Row::Number),
            once!(Tag::CostFunction, Row::Function),
            once!(Tag::AppliesTo, Row::EventApplies),
            once!(Tag::Role, Row::Role),
        ],
        Kind::SplitEvents => &[
            at_most_once!(Tag::Name, Row::Text),
            once!(Tag::Required, Row::Truth),
            once!(Tag::Weight, Row::Number),
            once!(Tag::CostFunction, Row::Function),
            once!(Tag::AppliesTo, Row::EventApplies),
            at_most_once!(Tag::MinimumDuration, Row::Number),
            at_most_once!(Tag::MaximumDuration, Row::Bound),
            at_most_once!(Tag::MinimumAmount, Row::Number),
            at_most_once!(Tag::MaximumAmount, Row::Bound),
        ],
        Kind::DistributeSplitEvents => &[
            at_most_once!(Tag::Name, Row::Text),
            once!(Tag::Required, Row::Truth),
            once!(Tag::Weight, Row::Number),
            once!(Tag::CostFunction, Row::Function),
            once!(Tag::AppliesTo, Row::EventApplies),
            once!(Tag::Duration, Row::Duration),
            at_most_once!(Tag::Minimum, Row::Number),
            at_most_once!(Tag::Maximum, Row::Bound),
        ],
        Kind::PreferTimes => &[
            at_most_once!(Tag::Name, Row::Text),
            once!(Tag::Required, Row::Truth),
            once!(Tag::Weight, Row::Number),
            once!(Tag::CostFunction, Row::Function),
            once!(Tag::AppliesTo, Row::EventApplies),
            at_most_once!(Tag::TimeGroups, Row::TimeGroupReferences),
            at_most_once!(Tag::Times, Row::TimeReferences),
            at_most_once!(Tag::Duration, Row::Duration),
        ],
        Kind::PreferResources => &[
            at_most_once!(Tag::Name, Row::Text),
            once!(Tag::Required, Row::Truth),
            once!(Tag::Weight, Row::Number),
            once!(Tag::CostFunction, Row::Function),
            once!(Tag::AppliesTo, Row::EventApplies),
            at_most_once!(Tag::ResourceGroups, Row::ResourceGroupReferences),
            at_most_once!(Tag::Resources, Row::ResourceReferences),
            once!(Tag::Role, Row::Role),
        ],
        Kind::AvoidSplitAssignments => &[
            at_most_once!(Tag::Name, Row::Text),
            once!(Tag::Required, Row::Truth),
            once!(Tag::Weight, Row::Number),
            once!(Tag::CostFunction, Row::Function),
            once!(Tag::AppliesTo, Row::GroupApplies),
            once!(Tag::Role, Row::Role),
        ],
        Kind::SpreadEvents => &[
            at_most_once!(Tag::Name, Row::Text),
            once!(Tag::Required, Row::Truth),
            once!(Tag::Weight, Row::Number),
            once!(Tag::CostFunction, Row::Function),
            once!(Tag::AppliesTo, Row::GroupApplies),
            at_most_once!(Tag::TimeGroups, Row::Spreads),
        ],
        Kind::LinkEvents => &[
            at_most_once!(Tag::Name, Row::Text),
            once!(Tag::Required, Row::Truth),
            once!(Tag::Weight, Row::Number),
            once!(Tag::CostFunction, Row::Function),
            once!(Tag::AppliesTo, Row::GroupApplies),
        ],
        Kind::OrderEvents => &[
            at_most_once!(Tag::Name, Row::Text),
            once!(Tag::Required, Row::Truth),
            once!(Tag::Weight, Row::Number),
            once!(Tag::CostFunction, Row::Function),
            once!(Tag::AppliesTo, Row::PairApplies),
        ],
        Kind::AvoidClashes => &[
            at_most_once!(Tag::Name, Row::Text),
            once!(Tag::Required, Row::Truth),
            once!(Tag::Weight, Row::Number),
            once!(Tag::CostFunction, Row::Function),
            once!(Tag::AppliesTo, Row::ResourceApplies),
        ],
        Kind::AvoidUnavailableTimes => &[
            at_most_once!(Tag::Name, Row::Text),
            once!(Tag::Required, Row::Truth),
            once!(Tag::Weight, Row::Number),
            once!(Tag::CostFunction, Row::Function),
            once!(Tag::AppliesTo, Row::ResourceApplies),
            at_most_once!(Tag::TimeGroups, Row::TimeGroupReferences),
            at_most_once!(Tag::Times, Row::TimeReferences),
        ],
        Kind::LimitIdleTimes => &[
            at_most_once!(Tag::Name, Row::Text),
            once!(Tag::Required, Row::Truth),
            once!(Tag::Weight, Row::Number),
            once!(Tag::CostFunction, Row::Function),
            once!(Tag::AppliesTo, Row::ResourceApplies),
            at_most_once!(Tag::TimeGroups, Row::TimeGroupReferences),
            at_most_once!(Tag::Minimum, Row::Number),
            at_most_once!(Tag::Maximum, Row::Bound),
        ],
        Kind::ClusterBusyTimes => &[
            at_most_once!(Tag::Name, Row::Text),
            once!(Tag::Required, Row::Truth),
            once!(Tag::Weight, Row::Number),
            once!(Tag::CostFunction, Row::Function),
            once!(Tag::AppliesTo, Row::ResourceApplies),
            at_most_once!(Tag::TimeGroups, Row::TimeGroupReferences),
            at_most_once!(Tag::Minimum, Row::Number),
            at_most_once!(Tag::Maximum, Row::Bound),
        ],
        Kind::LimitBusyTimes => &[
            at_most_once!(Tag::Name, Row::Text),
            once!(Tag::Required, Row::Truth),
            once!(Tag::Weight, Row::Number),
            once!(Tag::CostFunction, Row::Function),
            once!(Tag::AppliesTo, Row::ResourceApplies),
            at_most_once!(Tag::TimeGroups, Row::TimeGroupReferences),
            at_most_once!(Tag::Minimum, Row::Number),
            at_most_once!(Tag::Maximum, Row::Bound),
        ],
        Kind::LimitWorkload => &[
            at_most_once!(Tag::Name, Row::Text),
            once!(Tag::Required, Row::Truth),
            once!(Tag::Weight, Row::Number),
            once!(Tag::CostFunction, Row::Function),
            once!(Tag::AppliesTo, Row::ResourceApplies),
            at_most_once!(Tag::Minimum, Row::Number),
            at_most_once!(Tag::Maximum, Row::Bound),
        ],
    }
}
