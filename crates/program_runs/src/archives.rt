//! Archives that several crates of tests run the program on, and what is written of them in the canonical spelling,
//! as a program written apart from this one gave it.

/// An archive with an event `E` of three times and an event `F` of one, each with a place for one of
/// two resources of one type. Its first solution is empty, its second meets every constraint.
pub const TWO_EVENTS: &str = r#"<HighSchoolTimetableArchive>
<Instances><Instance Id="J">
<Times><Time Id="t0"/><Time Id="t1"/><Time Id="t2"/></Times>
<Resources><ResourceTypes><ResourceType Id="X"/></ResourceTypes>
<Resource Id="r0"><ResourceType Reference="X"/></Resource>
<Resource Id="r1"><ResourceType Reference="X"/></Resource></Resources>
<Events>
<Event Id="E"><Duration>3</Duration><Resources><Resource><Role>R</Role><ResourceType Reference="X"/></Resource></Resources></Event>
<Event Id="F"><Duration>1</Duration><Resources><Resource><Role>R</Role><ResourceType Reference="X"/></Resource></Resources></Event>
</Events>
<Constraints>
<AssignTimeConstraint Id="c0"><Required>true</Required><Weight>2</Weight><CostFunction>Linear</CostFunction>
<AppliesTo><Events><Event Reference="E"/><Event Reference="F"/></Events></AppliesTo></AssignTimeConstraint>
<AssignResourceConstraint Id="c1"><Required>true</Required><Weight>1</Weight><CostFunction>Linear</CostFunction>
<AppliesTo><Events><Event Reference="E"/><Event Reference="F"/></Events></AppliesTo><Role>R</Role></AssignResourceConstraint>
<AvoidClashesConstraint Id="c2"><Required>true</Required><Weight>5</Weight><CostFunction>Linear</CostFunction>
<AppliesTo><Resources><Resource Reference="r0"/><Resource Reference="r1"/></Resources></AppliesTo></AvoidClashesConstraint>
<PreferTimesConstraint Id="c3"><Required>false</Required><Weight>3</Weight><CostFunction>Linear</CostFunction>
<AppliesTo><Events><Event Reference="F"/></Events></AppliesTo><Times><Time Reference="t0"/></Times></PreferTimesConstraint>
</Constraints>
</Instance></Instances>
<SolutionGroups><SolutionGroup Id="H">
<Solution Reference="J"/>
<Solution Reference="J"><Events>
<Event Reference="E"><Time Reference="t0"/><Resources><Resource Reference="r0"><Role>R</Role></Resource></Resources></Event>
<Event Reference="F"><Time Reference="t0"/><Resources><Resource Reference="r1"><Role>R</Role></Resource></Resources></Event>
</Events></Solution>
</SolutionGroup></SolutionGroups>
</HighSchoolTimetableArchive>
"#;

/// The two events' archive in its canonical spelling, up to its solution groups.
pub const FRONT: &str = r#"<?xml version="1.0" encoding="UTF-8"?>
<HighSchoolTimetableArchive>
<Instances>
<Instance Id="J">
<Times>
<Time Id="t0"/>
<Time Id="t1"/>
<Time Id="t2"/>
</Times>
<Resources>
<ResourceTypes>
<ResourceType Id="X"/>
</ResourceTypes>
<Resource Id="r0">
<ResourceType Reference="X"/>
</Resource>
<Resource Id="r1">
<ResourceType Reference="X"/>
</Resource>
</Resources>
<Events>
<Event Id="E">
<Duration>3</Duration>
<Resources>
<Resource>
<Role>R</Role>
<ResourceType Reference="X"/>
</Resource>
</Resources>
</Event>
<Event Id="F">
<Duration>1</Duration>
<Resources>
<Resource>
<Role>R</Role>
<ResourceType Reference="X"/>
</Resource>
</Resources>
</Event>
</Events>
<Constraints>
<AssignTimeConstraint Id="c0">
<Required>true</Required>
<Weight>2</Weight>
<CostFunction>Linear</CostFunction>
<AppliesTo>
<Events>
<Event Reference="E"/>
<Event Reference="F"/>
</Events>
</AppliesTo>
</AssignTimeConstraint>
<AssignResourceConstraint Id="c1">
<Required>true</Required>
<Weight>1</Weight>
<CostFunction>Linear</CostFunction>
<AppliesTo>
<Events>
<Event Reference="E"/>
<Event Reference="F"/>
</Events>
</AppliesTo>
<Role>R</Role>
</AssignResourceConstraint>
<AvoidClashesConstraint Id="c2">
<Required>true</Required>
<Weight>5</Weight>
<CostFunction>Linear</CostFunction>
<AppliesTo>
<Resources>
<Resource Reference="r0"/>
<Resource Reference="r1"/>
</Resources>
</AppliesTo>
</AvoidClashesConstraint>
<PreferTimesConstraint Id="c3">
<Required>false</Required>
<Weight>3</Weight>
<CostFunction>Linear</CostFunction>
<AppliesTo>
<Events>
<Event Reference="F"/>
</Events>
</AppliesTo>
<Times>
<Time Reference="t0"/>
</Times>
</PreferTimesConstraint>
</Constraints>
</Instance>
</Instances>
<SolutionGroups>
"#;

/// The start tag of its solution group.
pub const GROUP: &str = "<SolutionGroup Id=\"H\">\n";

/// A solution of it that places nothing, as the first one does.
pub const EMPTY: &str = "<Solution Reference=\"J\"/>\n";

/// Its second solution.
pub const SECOND: &str = r#"<Solution Reference="J">
<Events>
<Event Reference="E">
<Time Reference="t0"/>
<Resources>
<Resource Reference="r0">
<Role>R</Role>
</Resource>
</Resources>
</Event>
<Event Reference="F">
<Time Reference="t0"/>
<Resources>
<Resource Reference="r1">
<Role>R</Role>
</Resource>
</Resources>
</Event>
</Events>
</Solution>
"#;

/// The same timetable as a command spells it that has made one: with the durations of its meets.
pub const PLACED: &str = r#"<Solution Reference="J">
<Events>
<Event Reference="E">
<Duration>3</Duration>
<Time Reference="t0"/>
<Resources>
<Resource Reference="r0">
<Role>R</Role>
</Resource>
</Resources>
</Event>
<Event Reference="F">
<Duration>1</Duration>
<Time Reference="t0"/>
<Resources>
<Resource Reference="r1">
<Role>R</Role>
</Resource>
</Resources>
</Event>
</Events>
</Solution>
"#;

/// What stands after its last solution.
pub const REST: &str = "</SolutionGroup>\n</SolutionGroups>\n</HighSchoolTimetableArchive>\n";

/// The archive of one event that `make 0 1` writes.
pub const MADE_ONE_EVENT: &str = r#"<?xml version="1.0" encoding="UTF-8"?>
<HighSchoolTimetableArchive>
<Instances>
<Instance Id="made">
<Times>
<TimeGroups>
<Day Id="d0"/>
<Day Id="d1"/>
<Day Id="d2"/>
<Day Id="d3"/>
<Day Id="d4"/>
<TimeGroup Id="early"/>
</TimeGroups>
<Time Id="t0">
<Day Reference="d0"/>
<TimeGroups>
<TimeGroup Reference="early"/>
</TimeGroups>
</Time>
<Time Id="t1">
<Day Reference="d0"/>
</Time>
<Time Id="t2">
<Day Reference="d0"/>
</Time>
<Time Id="t3">
<Day Reference="d0"/>
</Time>
<Time Id="t4">
<Day Reference="d0"/>
</Time>
<Time Id="t5">
<Day Reference="d0"/>
</Time>
<Time Id="t6">
<Day Reference="d0"/>
</Time>
<Time Id="t7">
<Day Reference="d0"/>
</Time>
<Time Id="t8">
<Day Reference="d1"/>
<TimeGroups>
<TimeGroup Reference="early"/>
</TimeGroups>
</Time>
<Time Id="t9">
<Day Reference="d1"/>
</Time>
<Time Id="t10">
<Day Reference="d1"/>
</Time>
<Time Id="t11">
<Day Reference="d1"/>
</Time>
<Time Id="t12">
<Day Reference="d1"/>
</Time>
<Time Id="t13">
<Day Reference="d1"/>
</Time>
<Time Id="t14">
<Day Reference="d1"/>
</Time>
<Time Id="t15">
<Day Reference="d1"/>
</Time>
<Time Id="t16">
<Day Reference="d2"/>
<TimeGroups>
<TimeGroup Reference="early"/>
</TimeGroups>
</Time>
<Time Id="t17">
<Day Reference="d2"/>
</Time>
<Time Id="t18">
<Day Reference="d2"/>
</Time>
<Time Id="t19">
<Day Reference="d2"/>
</Time>
<Time Id="t20">
<Day Reference="d2"/>
</Time>
<Time Id="t21">
<Day Reference="d2"/>
</Time>
<Time Id="t22">
<Day Reference="d2"/>
</Time>
<Time Id="t23">
<Day Reference="d2"/>
</Time>
<Time Id="t24">
<Day Reference="d3"/>
<TimeGroups>
<TimeGroup Reference="early"/>
</TimeGroups>
</Time>
<Time Id="t25">
<Day Reference="d3"/>
</Time>
<Time Id="t26">
<Day Reference="d3"/>
</Time>
<Time Id="t27">
<Day Reference="d3"/>
</Time>
<Time Id="t28">
<Day Reference="d3"/>
</Time>
<Time Id="t29">
<Day Reference="d3"/>
</Time>
<Time Id="t30">
<Day Reference="d3"/>
</Time>
<Time Id="t31">
<Day Reference="d3"/>
</Time>
<Time Id="t32">
<Day Reference="d4"/>
<TimeGroups>
<TimeGroup Reference="early"/>
</TimeGroups>
</Time>
<Time Id="t33">
<Day Reference="d4"/>
</Time>
<Time Id="t34">
<Day Reference="d4"/>
</Time>
<Time Id="t35">
<Day Reference="d4"/>
</Time>
<Time Id="t36">
<Day Reference="d4"/>
</Time>
<Time Id="t37">
<Day Reference="d4"/>
</Time>
<Time Id="t38">
<Day Reference="d4"/>
</Time>
<Time Id="t39">
<Day Reference="d4"/>
</Time>
</Times>
<Resources>
<ResourceTypes>
<ResourceType Id="Teacher"/>
<ResourceType Id="Class"/>
<ResourceType Id="Room"/>
</ResourceTypes>
<ResourceGroups>
<ResourceGroup Id="gp">
<ResourceType Reference="Teacher"/>
</ResourceGroup>
<ResourceGroup Id="gc">
<ResourceType Reference="Class"/>
</ResourceGroup>
<ResourceGroup Id="gq">
<ResourceType Reference="Room"/>
</ResourceGroup>
</ResourceGroups>
<Resource Id="p0">
<ResourceType Reference="Teacher"/>
<ResourceGroups>
<ResourceGroup Reference="gp"/>
</ResourceGroups>
</Resource>
<Resource Id="c0">
<ResourceType Reference="Class"/>
<ResourceGroups>
<ResourceGroup Reference="gc"/>
</ResourceGroups>
</Resource>
<Resource Id="q0">
<ResourceType Reference="Room"/>
<ResourceGroups>
<ResourceGroup Reference="gq"/>
</ResourceGroups>
</Resource>
</Resources>
<Events>
<EventGroups>
<EventGroup Id="all"/>
<EventGroup Id="h0"/>
</EventGroups>
<Event Id="e0">
<Duration>3</Duration>
<Resources>
<Resource Reference="c0"/>
<Resource>
<Role>T</Role>
<ResourceType Reference="Teacher"/>
</Resource>
<Resource>
<Role>R</Role>
<ResourceType Reference="Room"/>
</Resource>
</Resources>
<EventGroups>
<EventGroup Reference="all"/>
<EventGroup Reference="h0"/>
</EventGroups>
</Event>
</Events>
<Constraints>
<AssignTimeConstraint Id="x0">
<Required>true</Required>
<Weight>1</Weight>
<CostFunction>Linear</CostFunction>
<AppliesTo>
<EventGroups>
<EventGroup Reference="all"/>
</EventGroups>
</AppliesTo>
</AssignTimeConstraint>
<AssignResourceConstraint Id="x1">
<Required>true</Required>
<Weight>1</Weight>
<CostFunction>Linear</CostFunction>
<AppliesTo>
<EventGroups>
<EventGroup Reference="all"/>
</EventGroups>
</AppliesTo>
<Role>T</Role>
</AssignResourceConstraint>
<SplitEventsConstraint Id="x2">
<Required>false</Required>
<Weight>1</Weight>
<CostFunction>Linear</CostFunction>
<AppliesTo>
<EventGroups>
<EventGroup Reference="all"/>
</EventGroups>
</AppliesTo>
<MinimumDuration>1</MinimumDuration>
<MaximumDuration>2</MaximumDuration>
<MinimumAmount>1</MinimumAmount>
<MaximumAmount>2</MaximumAmount>
</SplitEventsConstraint>
<DistributeSplitEventsConstraint Id="x3">
<Required>false</Required>
<Weight>1</Weight>
<CostFunction>Step</CostFunction>
<AppliesTo>
<EventGroups>
<EventGroup Reference="all"/>
</EventGroups>
</AppliesTo>
<Duration>2</Duration>
<Minimum>0</Minimum>
<Maximum>1</Maximum>
</DistributeSplitEventsConstraint>
<PreferTimesConstraint Id="x4">
<Required>false</Required>
<Weight>1</Weight>
<CostFunction>Linear</CostFunction>
<AppliesTo>
<EventGroups>
<EventGroup Reference="all"/>
</EventGroups>
</AppliesTo>
<TimeGroups>
<TimeGroup Reference="early"/>
</TimeGroups>
<Duration>1</Duration>
</PreferTimesConstraint>
<PreferResourcesConstraint Id="x5">
<Required>false</Required>
<Weight>1</Weight>
<CostFunction>Linear</CostFunction>
<AppliesTo>
<EventGroups>
<EventGroup Reference="all"/>
</EventGroups>
</AppliesTo>
<Resources>
<Resource Reference="q0"/>
</Resources>
<Role>R</Role>
</PreferResourcesConstraint>
<AvoidSplitAssignmentsConstraint Id="x6">
<Required>false</Required>
<Weight>3</Weight>
<CostFunction>Linear</CostFunction>
<AppliesTo>
<EventGroups>
<EventGroup Reference="h0"/>
</EventGroups>
</AppliesTo>
<Role>T</Role>
</AvoidSplitAssignmentsConstraint>
<SpreadEventsConstraint Id="x7">
<Required>false</Required>
<Weight>2</Weight>
<CostFunction>Linear</CostFunction>
<AppliesTo>
<EventGroups>
<EventGroup Reference="h0"/>
</EventGroups>
</AppliesTo>
<TimeGroups>
<TimeGroup Reference="d0">
<Minimum>0</Minimum>
<Maximum>1</Maximum>
</TimeGroup>
<TimeGroup Reference="d1">
<Minimum>0</Minimum>
<Maximum>1</Maximum>
</TimeGroup>
<TimeGroup Reference="d2">
<Minimum>0</Minimum>
<Maximum>1</Maximum>
</TimeGroup>
<TimeGroup Reference="d3">
<Minimum>0</Minimum>
<Maximum>1</Maximum>
</TimeGroup>
<TimeGroup Reference="d4">
<Minimum>0</Minimum>
<Maximum>1</Maximum>
</TimeGroup>
</TimeGroups>
</SpreadEventsConstraint>
<LinkEventsConstraint Id="x8">
<Required>false</Required>
<Weight>1</Weight>
<CostFunction>Linear</CostFunction>
<AppliesTo>
<EventGroups>
<EventGroup Reference="h0"/>
</EventGroups>
</AppliesTo>
</LinkEventsConstraint>
<OrderEventsConstraint Id="x9">
<Required>false</Required>
<Weight>1</Weight>
<CostFunction>Linear</CostFunction>
<AppliesTo/>
</OrderEventsConstraint>
<AvoidClashesConstraint Id="x10">
<Required>true</Required>
<Weight>1</Weight>
<CostFunction>Linear</CostFunction>
<AppliesTo>
<ResourceGroups>
<ResourceGroup Reference="gp"/>
<ResourceGroup Reference="gc"/>
<ResourceGroup Reference="gq"/>
</ResourceGroups>
</AppliesTo>
</AvoidClashesConstraint>
<AvoidUnavailableTimesConstraint Id="x11">
<Required>true</Required>
<Weight>1</Weight>
<CostFunction>Linear</CostFunction>
<AppliesTo>
<ResourceGroups>
<ResourceGroup Reference="gp"/>
</ResourceGroups>
</AppliesTo>
<Times>
<Time Reference="t39"/>
</Times>
</AvoidUnavailableTimesConstraint>
<LimitIdleTimesConstraint Id="x12">
<Required>false</Required>
<Weight>1</Weight>
<CostFunction>Quadratic</CostFunction>
<AppliesTo>
<ResourceGroups>
<ResourceGroup Reference="gp"/>
</ResourceGroups>
</AppliesTo>
<TimeGroups>
<TimeGroup Reference="d0"/>
<TimeGroup Reference="d1"/>
<TimeGroup Reference="d2"/>
<TimeGroup Reference="d3"/>
<TimeGroup Reference="d4"/>
</TimeGroups>
<Minimum>0</Minimum>
<Maximum>2</Maximum>
</LimitIdleTimesConstraint>
<ClusterBusyTimesConstraint Id="x13">
<Required>false</Required>
<Weight>1</Weight>
<CostFunction>Linear</CostFunction>
<AppliesTo>
<ResourceGroups>
<ResourceGroup Reference="gp"/>
</ResourceGroups>
</AppliesTo>
<TimeGroups>
<TimeGroup Reference="d0"/>
<TimeGroup Reference="d1"/>
<TimeGroup Reference="d2"/>
<TimeGroup Reference="d3"/>
<TimeGroup Reference="d4"/>
</TimeGroups>
<Minimum>0</Minimum>
<Maximum>4</Maximum>
</ClusterBusyTimesConstraint>
<LimitBusyTimesConstraint Id="x14">
<Required>false</Required>
<Weight>1</Weight>
<CostFunction>Linear</CostFunction>
<AppliesTo>
<ResourceGroups>
<ResourceGroup Reference="gc"/>
</ResourceGroups>
</AppliesTo>
<TimeGroups>
<TimeGroup Reference="d0"/>
<TimeGroup Reference="d1"/>
<TimeGroup Reference="d2"/>
<TimeGroup Reference="d3"/>
<TimeGroup Reference="d4"/>
</TimeGroups>
<Minimum>2</Minimum>
<Maximum>6</Maximum>
</LimitBusyTimesConstraint>
<LimitWorkloadConstraint Id="x15">
<Required>false</Required>
<Weight>1</Weight>
<CostFunction>Linear</CostFunction>
<AppliesTo>
<ResourceGroups>
<ResourceGroup Reference="gp"/>
</ResourceGroups>
</AppliesTo>
<Minimum>0</Minimum>
<Maximum>12</Maximum>
</LimitWorkloadConstraint>
</Constraints>
</Instance>
</Instances>
<SolutionGroups>
<SolutionGroup Id="g">
<Solution Reference="made">
<Events>
<Event Reference="e0">
<Duration>3</Duration>
<Time Reference="t0"/>
<Resources>
<Resource Reference="p0">
<Role>T</Role>
</Resource>
</Resources>
</Event>
</Events>
</Solution>
<Solution Reference="made">
<Events>
<Event Reference="e0">
<Duration>1</Duration>
<Resources>
<Resource Reference="p0">
<Role>T</Role>
</Resource>
<Resource Reference="q0">
<Role>R</Role>
</Resource>
</Resources>
</Event>
<Event Reference="e0">
<Duration>2</Duration>
<Time Reference="t24"/>
<Resources>
<Resource Reference="p0">
<Role>T</Role>
</Resource>
<Resource Reference="q0">
<Role>R</Role>
</Resource>
</Resources>
</Event>
</Events>
</Solution>
<Solution Reference="made">
<Events>
<Event Reference="e0">
<Duration>1</Duration>
<Time Reference="t29"/>
<Resources>
<Resource Reference="p0">
<Role>T</Role>
</Resource>
<Resource Reference="q0">
<Role>R</Role>
</Resource>
</Resources>
</Event>
<Event Reference="e0">
<Duration>2</Duration>
<Time Reference="t16"/>
<Resources>
<Resource Reference="p0">
<Role>T</Role>
</Resource>
<Resource Reference="q0">
<Role>R</Role>
</Resource>
</Resources>
</Event>
</Events>
</Solution>
<Solution Reference="made">
<Events>
<Event Reference="e0">
<Duration>3</Duration>
<Time Reference="t3"/>
<Resources>
<Resource Reference="p0">
<Role>T</Role>
</Resource>
<Resource Reference="q0">
<Role>R</Role>
</Resource>
</Resources>
</Event>
</Events>
</Solution>
</SolutionGroup>
</SolutionGroups>
</HighSchoolTimetableArchive>
"#;
