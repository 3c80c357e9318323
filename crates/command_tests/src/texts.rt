//! The instances of the archives, as they are written.

/// The archive of an event that is to be cut, up to its solutions.
pub(crate) const TO_CUT_FRONT: &str = r#"<?xml version="1.0" encoding="UTF-8"?>
<HighSchoolTimetableArchive>
<Instances>
<Instance Id="I">
<Times>
<Time Id="t0"/>
<Time Id="t1"/>
<Time Id="t2"/>
</Times>
<Events>
<Event Id="E">
<Duration>3</Duration>
</Event>
</Events>
<Constraints>
<SplitEventsConstraint Id="c">
<Required>true</Required>
<Weight>2</Weight>
<CostFunction>Linear</CostFunction>
<AppliesTo>
<Events>
<Event Reference="E"/>
</Events>
</AppliesTo>
<MinimumDuration>0</MinimumDuration>
<MaximumDuration>2147483647</MaximumDuration>
<MinimumAmount>2</MinimumAmount>
<MaximumAmount>2147483647</MaximumAmount>
</SplitEventsConstraint>
</Constraints>
</Instance>
</Instances>
"#;

/// The archive of cuts up to its solution.
pub(crate) const CUTS_FRONT: &str = r#"<?xml version="1.0" encoding="UTF-8"?>
<HighSchoolTimetableArchive>
<Instances>
<Instance Id="C">
<Times>
<Time Id="t0"/>
<Time Id="t1"/>
<Time Id="t2"/>
<Time Id="t3"/>
<Time Id="t4"/>
<Time Id="t5"/>
<Time Id="t6"/>
<Time Id="t7"/>
</Times>
<Resources>
<ResourceTypes>
<ResourceType Id="X"/>
<ResourceType Id="Y"/>
</ResourceTypes>
<Resource Id="y0">
<ResourceType Reference="Y"/>
</Resource>
<Resource Id="r0">
<ResourceType Reference="X"/>
</Resource>
<Resource Id="r1">
<ResourceType Reference="X"/>
</Resource>
<Resource Id="c0">
<ResourceType Reference="Y"/>
</Resource>
</Resources>
<Events>
<Event Id="Fixed">
<Duration>2</Duration>
<Time Reference="t1"/>
<Resources>
<Resource Reference="c0"/>
</Resources>
</Event>
<Event Id="Both">
<Duration>4</Duration>
<Resources>
<Resource Reference="c0"/>
</Resources>
</Event>
<Event Id="Rest">
<Duration>5</Duration>
<Resources>
<Resource Reference="c0"/>
<Resource>
<Role>R</Role>
<ResourceType Reference="X"/>
</Resource>
</Resources>
</Event>
<Event Id="Whole">
<Duration>3</Duration>
<Resources>
<Resource Reference="c0"/>
<Resource>
<Role>R</Role>
<ResourceType Reference="X"/>
</Resource>
</Resources>
</Event>
<Event Id="Loose">
<Duration>1</Duration>
<Resources>
<Resource>
<Role>R</Role>
<ResourceType Reference="X"/>
</Resource>
</Resources>
</Event>
</Events>
<Constraints>
<SplitEventsConstraint Id="few">
<Required>false</Required>
<Weight>0</Weight>
<CostFunction>Linear</CostFunction>
<AppliesTo>
<Events>
<Event Reference="Both"/>
</Events>
</AppliesTo>
<MinimumDuration>0</MinimumDuration>
<MaximumDuration>2147483647</MaximumDuration>
<MinimumAmount>3</MinimumAmount>
<MaximumAmount>2147483647</MaximumAmount>
</SplitEventsConstraint>
<SplitEventsConstraint Id="short">
<Required>true</Required>
<Weight>1</Weight>
<CostFunction>Linear</CostFunction>
<AppliesTo>
<Events>
<Event Reference="Fixed"/>
<Event Reference="Both"/>
<Event Reference="Rest"/>
</Events>
</AppliesTo>
<MinimumDuration>0</MinimumDuration>
<MaximumDuration>2</MaximumDuration>
<MinimumAmount>0</MinimumAmount>
<MaximumAmount>2147483647</MaximumAmount>
</SplitEventsConstraint>
<SplitEventsConstraint Id="double">
<Required>true</Required>
<Weight>1</Weight>
<CostFunction>Linear</CostFunction>
<AppliesTo>
<Events>
<Event Reference="Whole"/>
</Events>
</AppliesTo>
<MinimumDuration>2</MinimumDuration>
<MaximumDuration>2</MaximumDuration>
<MinimumAmount>0</MinimumAmount>
<MaximumAmount>2147483647</MaximumAmount>
</SplitEventsConstraint>
<AssignTimeConstraint Id="placed">
<Required>true</Required>
<Weight>1</Weight>
<CostFunction>Linear</CostFunction>
<AppliesTo>
<Events>
<Event Reference="Both"/>
<Event Reference="Rest"/>
<Event Reference="Whole"/>
</Events>
</AppliesTo>
</AssignTimeConstraint>
<AvoidClashesConstraint Id="apart">
<Required>true</Required>
<Weight>2</Weight>
<CostFunction>Linear</CostFunction>
<AppliesTo>
<Resources>
<Resource Reference="c0"/>
<Resource Reference="r0"/>
</Resources>
</AppliesTo>
</AvoidClashesConstraint>
<AssignResourceConstraint Id="taught">
<Required>false</Required>
<Weight>1</Weight>
<CostFunction>Linear</CostFunction>
<AppliesTo>
<Events>
<Event Reference="Rest"/>
<Event Reference="Whole"/>
</Events>
</AppliesTo>
<Role>R</Role>
</AssignResourceConstraint>
<PreferResourcesConstraint Id="own">
<Required>false</Required>
<Weight>1</Weight>
<CostFunction>Linear</CostFunction>
<AppliesTo>
<Events>
<Event Reference="Whole"/>
</Events>
</AppliesTo>
<Resources>
<Resource Reference="r1"/>
</Resources>
<Role>R</Role>
</PreferResourcesConstraint>
</Constraints>
</Instance>
</Instances>
"#;

/// The archive of two instances up to its solution.
pub(crate) const TWO_FRONT: &str = r#"<?xml version="1.0" encoding="UTF-8"?>
<HighSchoolTimetableArchive Id="Two">
<MetaData>
<Name>Both</Name>
</MetaData>
<Instances>
<Instance Id="I">
<Times>
<Time Id="t0"/>
<Time Id="t1"/>
</Times>
<Events>
<Event Id="E">
<Duration>2</Duration>
</Event>
</Events>
</Instance>
<Instance Id="K">
<Times>
<Time Id="t0"/>
<Time Id="t1"/>
<Time Id="t2"/>
<Time Id="t3"/>
</Times>
<Resources>
<ResourceTypes>
<ResourceType Id="Y"/>
</ResourceTypes>
<Resource Id="c0">
<ResourceType Reference="Y"/>
</Resource>
</Resources>
<Events>
<Event Id="E">
<Duration>2</Duration>
<Resources>
<Resource Reference="c0"/>
</Resources>
</Event>
<Event Id="F">
<Duration>1</Duration>
<Resources>
<Resource Reference="c0"/>
</Resources>
</Event>
</Events>
<Constraints>
<AssignTimeConstraint Id="placed">
<Required>true</Required>
<Weight>9</Weight>
<CostFunction>Linear</CostFunction>
<AppliesTo>
<Events>
<Event Reference="E"/>
<Event Reference="F"/>
</Events>
</AppliesTo>
</AssignTimeConstraint>
<AvoidClashesConstraint Id="apart">
<Required>true</Required>
<Weight>5</Weight>
<CostFunction>Linear</CostFunction>
<AppliesTo>
<Resources>
<Resource Reference="c0"/>
</Resources>
</AppliesTo>
</AvoidClashesConstraint>
<PreferTimesConstraint Id="first">
<Required>true</Required>
<Weight>3</Weight>
<CostFunction>Linear</CostFunction>
<AppliesTo>
<Events>
<Event Reference="F"/>
</Events>
</AppliesTo>
<Times>
<Time Reference="t0"/>
</Times>
</PreferTimesConstraint>
</Constraints>
</Instance>
</Instances>
"#;

/// The archive of three events up to its solutions.
pub(crate) const CHOICE_FRONT: &str = r#"<?xml version="1.0" encoding="UTF-8"?>
<HighSchoolTimetableArchive>
<Instances>
<Instance Id="M">
<Times>
<Time Id="t0"/>
<Time Id="t1"/>
<Time Id="t2"/>
</Times>
<Resources>
<ResourceTypes>
<ResourceType Id="X"/>
<ResourceType Id="Y"/>
</ResourceTypes>
<Resource Id="y0">
<ResourceType Reference="Y"/>
</Resource>
<Resource Id="r0">
<ResourceType Reference="X"/>
</Resource>
<Resource Id="r1">
<ResourceType Reference="X"/>
</Resource>
</Resources>
<Events>
<Event Id="E">
<Duration>2</Duration>
<Resources>
<Resource Reference="r0"/>
<Resource>
<Role>R</Role>
<ResourceType Reference="X"/>
</Resource>
</Resources>
</Event>
<Event Id="F">
<Duration>1</Duration>
<Resources>
<Resource>
<Role>R</Role>
<ResourceType Reference="X"/>
</Resource>
<Resource>
<Role>Z</Role>
<ResourceType Reference="Y"/>
</Resource>
</Resources>
</Event>
<Event Id="G">
<Duration>1</Duration>
<Resources>
<Resource>
<Role>R</Role>
<ResourceType Reference="X"/>
</Resource>
</Resources>
</Event>
</Events>
<Constraints>
<AssignResourceConstraint Id="taught">
<Required>true</Required>
<Weight>9</Weight>
<CostFunction>Linear</CostFunction>
<AppliesTo>
<Events>
<Event Reference="E"/>
<Event Reference="F"/>
<Event Reference="G"/>
</Events>
</AppliesTo>
<Role>R</Role>
</AssignResourceConstraint>
<PreferResourcesConstraint Id="first">
<Required>true</Required>
<Weight>1</Weight>
<CostFunction>Linear</CostFunction>
<AppliesTo>
<Events>
<Event Reference="E"/>
</Events>
</AppliesTo>
<Resources>
<Resource Reference="r0"/>
</Resources>
<Role>R</Role>
</PreferResourcesConstraint>
<PreferResourcesConstraint Id="own">
<Required>true</Required>
<Weight>4</Weight>
<CostFunction>Linear</CostFunction>
<AppliesTo>
<Events>
<Event Reference="F"/>
</Events>
</AppliesTo>
<Resources>
<Resource Reference="r0"/>
</Resources>
<Role>R</Role>
</PreferResourcesConstraint>
<AvoidUnavailableTimesConstraint Id="away">
<Required>true</Required>
<Weight>20</Weight>
<CostFunction>Linear</CostFunction>
<AppliesTo>
<Resources>
<Resource Reference="r0"/>
<Resource Reference="r1"/>
</Resources>
</AppliesTo>
<Times>
<Time Reference="t2"/>
</Times>
</AvoidUnavailableTimesConstraint>
</Constraints>
</Instance>
</Instances>
"#;
