//! What repairs are written as. The archives that are repaired stand in `archives`, the commands in `commands`.

/// The first solution of the archive of two events, where one chain may be tried.
pub(crate) const SPENT: &str = r#"<Solution Reference="J">
<Events>
<Event Reference="E">
<Duration>3</Duration>
<Time Reference="t0"/>
</Event>
<Event Reference="F">
<Duration>1</Duration>
</Event>
</Events>
</Solution>
"#;

/// The same, where two chains may be tried, and each list of defects and of moves is begun at its fifth item
/// (the diversifier is 4).
pub(crate) const FIFTH: &str = r#"<Solution Reference="J">
<Events>
<Event Reference="E">
<Duration>3</Duration>
<Time Reference="t0"/>
<Resources>
<Resource Reference="r0">
<Role>R</Role>
</Resource>
</Resources>
</Event>
<Event Reference="F">
<Duration>1</Duration>
</Event>
</Events>
</Solution>
"#;

/// The crossed archive: its events go to each other's time.
pub(crate) const SWAPPED: &str = r#"<?xml version="1.0" encoding="UTF-8"?>
<HighSchoolTimetableArchive>
<Instances>
<Instance Id="K">
<Times>
<Time Id="t0"/>
<Time Id="t1"/>
</Times>
<Resources>
<ResourceTypes>
<ResourceType Id="X"/>
</ResourceTypes>
<Resource Id="r0">
<ResourceType Reference="X"/>
</Resource>
</Resources>
<Events>
<Event Id="F">
<Duration>1</Duration>
<Resources>
<Resource Reference="r0"/>
</Resources>
</Event>
<Event Id="G">
<Duration>1</Duration>
<Resources>
<Resource Reference="r0"/>
</Resources>
</Event>
</Events>
<Constraints>
<PreferTimesConstraint Id="c0">
<Required>true</Required>
<Weight>1</Weight>
<CostFunction>Linear</CostFunction>
<AppliesTo>
<Events>
<Event Reference="F"/>
</Events>
</AppliesTo>
<Times>
<Time Reference="t0"/>
</Times>
</PreferTimesConstraint>
<PreferTimesConstraint Id="c1">
<Required>true</Required>
<Weight>1</Weight>
<CostFunction>Linear</CostFunction>
<AppliesTo>
<Events>
<Event Reference="G"/>
</Events>
</AppliesTo>
<Times>
<Time Reference="t1"/>
</Times>
</PreferTimesConstraint>
<AvoidClashesConstraint Id="c2">
<Required>true</Required>
<Weight>5</Weight>
<CostFunction>Linear</CostFunction>
<AppliesTo>
<Resources>
<Resource Reference="r0"/>
</Resources>
</AppliesTo>
</AvoidClashesConstraint>
</Constraints>
</Instance>
</Instances>
<SolutionGroups>
<SolutionGroup Id="G">
<Solution Reference="K">
<Events>
<Event Reference="F">
<Duration>1</Duration>
<Time Reference="t0"/>
</Event>
<Event Reference="G">
<Duration>1</Duration>
<Time Reference="t1"/>
</Event>
</Events>
</Solution>
</SolutionGroup>
</SolutionGroups>
</HighSchoolTimetableArchive>
<!-- khe repair done accepted 1 tried 2 hard 0 soft 0 -->
"#;

/// The archive with an event that is to be cut.
pub(crate) const CUT: &str = r#"<?xml version="1.0" encoding="UTF-8"?>
<HighSchoolTimetableArchive>
<Instances>
<Instance Id="I">
<Times>
<Time Id="t0"/>
<Time Id="t1"/>
<Time Id="t2"/>
</Times>
<Events>
<Event Id="E">
<Duration>3</Duration>
</Event>
</Events>
<Constraints>
<SplitEventsConstraint Id="c">
<Required>true</Required>
<Weight>2</Weight>
<CostFunction>Linear</CostFunction>
<AppliesTo>
<Events>
<Event Reference="E"/>
</Events>
</AppliesTo>
<MinimumDuration>0</MinimumDuration>
<MaximumDuration>2147483647</MaximumDuration>
<MinimumAmount>2</MinimumAmount>
<MaximumAmount>2147483647</MaximumAmount>
</SplitEventsConstraint>
</Constraints>
</Instance>
</Instances>
<SolutionGroups>
<SolutionGroup Id="G">
<Solution Reference="I">
<Events>
<Event Reference="E">
<Duration>1</Duration>
</Event>
<Event Reference="E">
<Duration>2</Duration>
</Event>
</Events>
</Solution>
</SolutionGroup>
</SolutionGroups>
</HighSchoolTimetableArchive>
<!-- khe repair done accepted 1 tried 1 hard 0 soft 0 -->
"#;

/// The archive with an event that is to be whole.
pub(crate) const JOINED: &str = r#"<?xml version="1.0" encoding="UTF-8"?>
<HighSchoolTimetableArchive>
<Instances>
<Instance Id="I">
<Times>
<Time Id="t0"/>
<Time Id="t1"/>
<Time Id="t2"/>
</Times>
<Events>
<Event Id="E">
<Duration>3</Duration>
</Event>
</Events>
<Constraints>
<SplitEventsConstraint Id="c">
<Required>true</Required>
<Weight>2</Weight>
<CostFunction>Linear</CostFunction>
<AppliesTo>
<Events>
<Event Reference="E"/>
</Events>
</AppliesTo>
<MinimumDuration>0</MinimumDuration>
<MaximumDuration>2147483647</MaximumDuration>
<MinimumAmount>0</MinimumAmount>
<MaximumAmount>1</MaximumAmount>
</SplitEventsConstraint>
</Constraints>
</Instance>
</Instances>
<SolutionGroups>
<SolutionGroup Id="G">
<Solution Reference="I">
<Events>
<Event Reference="E">
<Duration>3</Duration>
</Event>
</Events>
</Solution>
</SolutionGroup>
</SolutionGroups>
</HighSchoolTimetableArchive>
<!-- khe repair done accepted 1 tried 2 hard 0 soft 0 -->
"#;

/// An event without a start, which costs nothing, so no move is tried.
pub(crate) const UNTRIED: &str = r#"<?xml version="1.0" encoding="UTF-8"?>
<HighSchoolTimetableArchive>
<Instances>
<Instance Id="I">
<Times>
<Time Id="t0"/>
<Time Id="t1"/>
<Time Id="t2"/>
</Times>
<Events>
<Event Id="E">
<Duration>3</Duration>
</Event>
</Events>
<Constraints>
<AssignTimeConstraint Id="c">
<Required>true</Required>
<Weight>0</Weight>
<CostFunction>Linear</CostFunction>
<AppliesTo>
<Events>
<Event Reference="E"/>
</Events>
</AppliesTo>
</AssignTimeConstraint>
</Constraints>
</Instance>
</Instances>
<SolutionGroups>
<SolutionGroup Id="G">
<Solution Reference="I">
<Events>
<Event Reference="E">
<Duration>3</Duration>
</Event>
</Events>
</Solution>
</SolutionGroup>
</SolutionGroups>
</HighSchoolTimetableArchive>
<!-- khe repair done accepted 0 tried 0 hard 0 soft 0 -->
"#;
