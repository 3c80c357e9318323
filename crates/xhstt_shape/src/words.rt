//! The names of elements, attributes and values.

ghost use Rattle.std.specs.Prelude.{◌≡◌};
ghost use Rattle.std.specs.Str.{bytes_eq};
ghost use Rattle.xhstt_shape.specs.Words as words;

use khe_instance::Kind;

/// Whether a name is this word. Most names that are not differ in length, and the others are so short
/// that byte by byte is quicker than a comparison of slices.
#[inline]
pub(crate) fn is_word(word: &[u8], name: &[u8]) -> bool
    ensures { result ≡ bytes_eq word.now name.now }
{
    if word.len() != name.len() {
        return false;
    }
    for place in 0..word.len() {
        if word[place] != name[place] {
            return false;
        }
    }
    true
}

/// The name of the element of a constraint of this kind.
#[tactic(auto, unfolding(crate::specs::Words::kind_word))]
pub(crate) fn kind_word(kind: Kind) -> &'static [u8]
    ensures { result.now ≡ words.kind_word kind }
{
    match kind {
        Kind::AssignTime => b"AssignTimeConstraint",
        Kind::AssignResource => b"AssignResourceConstraint",
        Kind::SplitEvents => b"SplitEventsConstraint",
        Kind::DistributeSplitEvents => b"DistributeSplitEventsConstraint",
        Kind::PreferTimes => b"PreferTimesConstraint",
        Kind::PreferResources => b"PreferResourcesConstraint",
        Kind::AvoidSplitAssignments => b"AvoidSplitAssignmentsConstraint",
        Kind::SpreadEvents => b"SpreadEventsConstraint",
        Kind::LinkEvents => b"LinkEventsConstraint",
        Kind::OrderEvents => b"OrderEventsConstraint",
        Kind::AvoidClashes => b"AvoidClashesConstraint",
        Kind::AvoidUnavailableTimes => b"AvoidUnavailableTimesConstraint",
        Kind::LimitIdleTimes => b"LimitIdleTimesConstraint",
        Kind::ClusterBusyTimes => b"ClusterBusyTimesConstraint",
        Kind::LimitBusyTimes => b"LimitBusyTimesConstraint",
        Kind::LimitWorkload => b"LimitWorkloadConstraint",
    }
}

/// The names of elements.
#[derive(Clone, Copy)]
pub enum Tag {
    HighSchoolTimetableArchive,
    MetaData,
    Instances,
    SolutionGroups,
    Name,
    Contributor,
    Date,
    Country,
    Description,
    Publication,
    Remarks,
    Instance,
    Times,
    Resources,
    Events,
    Constraints,
    TimeGroups,
    Time,
    Week,
    Day,
    TimeGroup,
    ResourceTypes,
    ResourceGroups,
    Resource,
    ResourceType,
    ResourceGroup,
    EventGroups,
    Event,
    Course,
    EventGroup,
    Duration,
    Workload,
    Role,
    Required,
    Weight,
    CostFunction,
    AppliesTo,
    MinimumDuration,
    MaximumDuration,
    MinimumAmount,
    MaximumAmount,
    Minimum,
    Maximum,
    EventPairs,
    EventPair,
    FirstEvent,
    SecondEvent,
    MinSeparation,
    MaxSeparation,
    SolutionGroup,
    Solution,
    RunningTime,
    Report,
    Constraint(Kind),
}

impl Tag {
    /// The name as it is spelled.
    #[tactic(auto, unfolding(crate::specs::Words::word))]
    pub fn word(self) -> &'static [u8]
        ensures { result.now ≡ words.word self }
    {
        match self {
            Tag::HighSchoolTimetableArchive => b"HighSchoolTimetableArchive",
            Tag::MetaData => b"MetaData",
            Tag::Instances => b"Instances",
            Tag::SolutionGroups => b"SolutionGroups",
            Tag::Name => b"Name",
            Tag::Contributor => b"Contributor",
            Tag::Date => b"Date",
            Tag::Country => b"Country",
            Tag::Description => b"Description",
            Tag::Publication => b"Publication",
            Tag::Remarks => b"Remarks",
            Tag::Instance => b"Instance",
            Tag::Times => b"Times",
            Tag::Resources => b"Resources",
            Tag::Events => b"Events",
            Tag::Constraints => b"Constraints",
            Tag::TimeGroups => b"TimeGroups",
            Tag::Time => b"Time",
            Tag::Week => b"Week",
            Tag::Day => b"Day",
            Tag::TimeGroup => b"TimeGroup",
            Tag::ResourceTypes => b"ResourceTypes",
            Tag::ResourceGroups => b"ResourceGroups",
            Tag::Resource => b"Resource",
            Tag::ResourceType => b"ResourceType",
            Tag::ResourceGroup => b"ResourceGroup",
            Tag::EventGroups => b"EventGroups",
            Tag::Event => b"Event",
            Tag::Course => b"Course",
            Tag::EventGroup => b"EventGroup",
            Tag::Duration => b"Duration",
            Tag::Workload => b"Workload",
            Tag::Role => b"Role",
            Tag::Required => b"Required",
            Tag::Weight => b"Weight",
            Tag::CostFunction => b"CostFunction",
            Tag::AppliesTo => b"AppliesTo",
            Tag::MinimumDuration => b"MinimumDuration",
            Tag::MaximumDuration => b"MaximumDuration",
            Tag::MinimumAmount => b"MinimumAmount",
            Tag::MaximumAmount => b"MaximumAmount",
            Tag::Minimum => b"Minimum",
            Tag::Maximum => b"Maximum",
            Tag::EventPairs => b"EventPairs",
            Tag::EventPair => b"EventPair",
            Tag::FirstEvent => b"FirstEvent",
            Tag::SecondEvent => b"SecondEvent",
            Tag::MinSeparation => b"MinSeparation",
            Tag::MaxSeparation => b"MaxSeparation",
            Tag::SolutionGroup => b"SolutionGroup",
            Tag::Solution => b"Solution",
            Tag::RunningTime => b"RunningTime",
            Tag::Report => b"Report",
            Tag::Constraint(kind) => kind_word(kind),
        }
    }
}

/// The names of attributes.
#[derive(Clone, Copy)]
pub enum Label {
    Id,
    Reference,
    Color,
}

impl Label {
    /// The name as it is spelled.
    #[tactic(auto, unfolding(crate::specs::Words::label_word))]
    pub fn word(self) -> &'static [u8]
        ensures { result.now ≡ words.label_word self }
    {
        match self {
            Label::Id => b"Id",
            Label::Reference => b"Reference",
            Label::Color => b"Color",
        }
    }
}
