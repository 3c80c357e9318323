//! Archives that scripts, repairs and solves are run on.

/// The archive of two events, but for an entry in its first solution by which `E` would run past the last time.
pub(crate) const OFF_END: &str = r#"<HighSchoolTimetableArchive>
<Instances><Instance Id="J">
<Times><Time Id="t0"/><Time Id="t1"/><Time Id="t2"/></Times>
<Resources><ResourceTypes><ResourceType Id="X"/></ResourceTypes>
<Resource Id="r0"><ResourceType Reference="X"/></Resource>
<Resource Id="r1"><ResourceType Reference="X"/></Resource></Resources>
<Events>
<Event Id="E"><Duration>3</Duration><Resources><Resource><Role>R</Role><ResourceType Reference="X"/></Resource></Resources></Event>
<Event Id="F"><Duration>1</Duration><Resources><Resource><Role>R</Role><ResourceType Reference="X"/></Resource></Resources></Event>
</Events>
<Constraints>
<AssignTimeConstraint Id="c0"><Required>true</Required><Weight>2</Weight><CostFunction>Linear</CostFunction>
<AppliesTo><Events><Event Reference="E"/><Event Reference="F"/></Events></AppliesTo></AssignTimeConstraint>
<AssignResourceConstraint Id="c1"><Required>true</Required><Weight>1</Weight><CostFunction>Linear</CostFunction>
<AppliesTo><Events><Event Reference="E"/><Event Reference="F"/></Events></AppliesTo><Role>R</Role></AssignResourceConstraint>
<AvoidClashesConstraint Id="c2"><Required>true</Required><Weight>5</Weight><CostFunction>Linear</CostFunction>
<AppliesTo><Resources><Resource Reference="r0"/><Resource Reference="r1"/></Resources></AppliesTo></AvoidClashesConstraint>
<PreferTimesConstraint Id="c3"><Required>false</Required><Weight>3</Weight><CostFunction>Linear</CostFunction>
<AppliesTo><Events><Event Reference="F"/></Events></AppliesTo><Times><Time Reference="t0"/></Times></PreferTimesConstraint>
</Constraints>
</Instance></Instances>
<SolutionGroups><SolutionGroup Id="H">
<Solution Reference="J"><Events><Event Reference="E"><Time Reference="t1"/></Event></Events></Solution>
<Solution Reference="J"><Events>
<Event Reference="E"><Time Reference="t0"/><Resources><Resource Reference="r0"><Role>R</Role></Resource></Resources></Event>
<Event Reference="F"><Time Reference="t0"/><Resources><Resource Reference="r1"><Role>R</Role></Resource></Resources></Event>
</Events></Solution>
</SolutionGroup></SolutionGroups>
</HighSchoolTimetableArchive>
"#;

/// The same cut off within its last end tag.
pub(crate) const CUT_SHORT: &str = r#"<HighSchoolTimetableArchive></HighSch"#;

/// The archive of two events, in which `r0` must be free at `t0`.
pub(crate) const RESERVED: &str = r#"<HighSchoolTimetableArchive>
<Instances><Instance Id="J">
<Times><Time Id="t0"/><Time Id="t1"/><Time Id="t2"/></Times>
<Resources><ResourceTypes><ResourceType Id="X"/></ResourceTypes>
<Resource Id="r0"><ResourceType Reference="X"/></Resource>
<Resource Id="r1"><ResourceType Reference="X"/></Resource></Resources>
<Events>
<Event Id="E"><Duration>3</Duration><Resources><Resource><Role>R</Role><ResourceType Reference="X"/></Resource></Resources></Event>
<Event Id="F"><Duration>1</Duration><Resources><Resource><Role>R</Role><ResourceType Reference="X"/></Resource></Resources></Event>
</Events>
<Constraints>
<AssignTimeConstraint Id="c0"><Required>true</Required><Weight>2</Weight><CostFunction>Linear</CostFunction>
<AppliesTo><Events><Event Reference="E"/><Event Reference="F"/></Events></AppliesTo></AssignTimeConstraint>
<AssignResourceConstraint Id="c1"><Required>true</Required><Weight>1</Weight><CostFunction>Linear</CostFunction>
<AppliesTo><Events><Event Reference="E"/><Event Reference="F"/></Events></AppliesTo><Role>R</Role></AssignResourceConstraint>
<AvoidClashesConstraint Id="c2"><Required>true</Required><Weight>5</Weight><CostFunction>Linear</CostFunction>
<AppliesTo><Resources><Resource Reference="r0"/><Resource Reference="r1"/></Resources></AppliesTo></AvoidClashesConstraint>
<PreferTimesConstraint Id="c3"><Required>false</Required><Weight>3</Weight><CostFunction>Linear</CostFunction>
<AppliesTo><Events><Event Reference="F"/></Events></AppliesTo><Times><Time Reference="t0"/></Times></PreferTimesConstraint>
<AvoidUnavailableTimesConstraint Id="c4"><Required>true</Required><Weight>1</Weight><CostFunction>Linear</CostFunction>
<AppliesTo><Resources><Resource Reference="r0"/></Resources></AppliesTo><Times><Time Reference="t0"/></Times></AvoidUnavailableTimesConstraint>
</Constraints>
</Instance></Instances>
<SolutionGroups><SolutionGroup Id="H">
<Solution Reference="J"/>
<Solution Reference="J"><Events>
<Event Reference="E"><Time Reference="t0"/><Resources><Resource Reference="r0"><Role>R</Role></Resource></Resources></Event>
<Event Reference="F"><Time Reference="t0"/><Resources><Resource Reference="r1"><Role>R</Role></Resource></Resources></Event>
</Events></Solution>
</SolutionGroup></SolutionGroups>
</HighSchoolTimetableArchive>
"#;

/// The same, but that this costs nothing.
pub(crate) const UNRESERVED: &str = r#"<HighSchoolTimetableArchive>
<Instances><Instance Id="J">
<Times><Time Id="t0"/><Time Id="t1"/><Time Id="t2"/></Times>
<Resources><ResourceTypes><ResourceType Id="X"/></ResourceTypes>
<Resource Id="r0"><ResourceType Reference="X"/></Resource>
<Resource Id="r1"><ResourceType Reference="X"/></Resource></Resources>
<Events>
<Event Id="E"><Duration>3</Duration><Resources><Resource><Role>R</Role><ResourceType Reference="X"/></Resource></Resources></Event>
<Event Id="F"><Duration>1</Duration><Resources><Resource><Role>R</Role><ResourceType Reference="X"/></Resource></Resources></Event>
</Events>
<Constraints>
<AssignTimeConstraint Id="c0"><Required>true</Required><Weight>2</Weight><CostFunction>Linear</CostFunction>
<AppliesTo><Events><Event Reference="E"/><Event Reference="F"/></Events></AppliesTo></AssignTimeConstraint>
<AssignResourceConstraint Id="c1"><Required>true</Required><Weight>1</Weight><CostFunction>Linear</CostFunction>
<AppliesTo><Events><Event Reference="E"/><Event Reference="F"/></Events></AppliesTo><Role>R</Role></AssignResourceConstraint>
<AvoidClashesConstraint Id="c2"><Required>true</Required><Weight>5</Weight><CostFunction>Linear</CostFunction>
<AppliesTo><Resources><Resource Reference="r0"/><Resource Reference="r1"/></Resources></AppliesTo></AvoidClashesConstraint>
<PreferTimesConstraint Id="c3"><Required>false</Required><Weight>3</Weight><CostFunction>Linear</CostFunction>
<AppliesTo><Events><Event Reference="F"/></Events></AppliesTo><Times><Time Reference="t0"/></Times></PreferTimesConstraint>
<AvoidUnavailableTimesConstraint Id="c4"><Required>true</Required><Weight>0</Weight><CostFunction>Linear</CostFunction>
<AppliesTo><Resources><Resource Reference="r0"/></Resources></AppliesTo><Times><Time Reference="t0"/></Times></AvoidUnavailableTimesConstraint>
</Constraints>
</Instance></Instances>
<SolutionGroups><SolutionGroup Id="H">
<Solution Reference="J"/>
<Solution Reference="J"><Events>
<Event Reference="E"><Time Reference="t0"/><Resources><Resource Reference="r0"><Role>R</Role></Resource></Resources></Event>
<Event Reference="F"><Time Reference="t0"/><Resources><Resource Reference="r1"><Role>R</Role></Resource></Resources></Event>
</Events></Solution>
</SolutionGroup></SolutionGroups>
</HighSchoolTimetableArchive>
"#;

/// The archive of two events, in which `F` must start at `t0`: that is the monitor 6.
pub(crate) const STRICT: &str = r#"<HighSchoolTimetableArchive>
<Instances><Instance Id="J">
<Times><Time Id="t0"/><Time Id="t1"/><Time Id="t2"/></Times>
<Resources><ResourceTypes><ResourceType Id="X"/></ResourceTypes>
<Resource Id="r0"><ResourceType Reference="X"/></Resource>
<Resource Id="r1"><ResourceType Reference="X"/></Resource></Resources>
<Events>
<Event Id="E"><Duration>3</Duration><Resources><Resource><Role>R</Role><ResourceType Reference="X"/></Resource></Resources></Event>
<Event Id="F"><Duration>1</Duration><Resources><Resource><Role>R</Role><ResourceType Reference="X"/></Resource></Resources></Event>
</Events>
<Constraints>
<AssignTimeConstraint Id="c0"><Required>true</Required><Weight>2</Weight><CostFunction>Linear</CostFunction>
<AppliesTo><Events><Event Reference="E"/><Event Reference="F"/></Events></AppliesTo></AssignTimeConstraint>
<AssignResourceConstraint Id="c1"><Required>true</Required><Weight>1</Weight><CostFunction>Linear</CostFunction>
<AppliesTo><Events><Event Reference="E"/><Event Reference="F"/></Events></AppliesTo><Role>R</Role></AssignResourceConstraint>
<AvoidClashesConstraint Id="c2"><Required>true</Required><Weight>5</Weight><CostFunction>Linear</CostFunction>
<AppliesTo><Resources><Resource Reference="r0"/><Resource Reference="r1"/></Resources></AppliesTo></AvoidClashesConstraint>
<PreferTimesConstraint Id="c3"><Required>true</Required><Weight>3</Weight><CostFunction>Linear</CostFunction>
<AppliesTo><Events><Event Reference="F"/></Events></AppliesTo><Times><Time Reference="t0"/></Times></PreferTimesConstraint>
</Constraints>
</Instance></Instances>
<SolutionGroups><SolutionGroup Id="H">
<Solution Reference="J"/>
<Solution Reference="J"><Events>
<Event Reference="E"><Time Reference="t0"/><Resources><Resource Reference="r0"><Role>R</Role></Resource></Resources></Event>
<Event Reference="F"><Time Reference="t0"/><Resources><Resource Reference="r1"><Role>R</Role></Resource></Resources></Event>
</Events></Solution>
</SolutionGroup></SolutionGroups>
</HighSchoolTimetableArchive>
"#;

/// An event without a start, which costs nothing.
pub(crate) const FREE: &str = r#"<HighSchoolTimetableArchive>
<Instances><Instance Id="I">
<Times><Time Id="t0"/><Time Id="t1"/><Time Id="t2"/></Times>
<Events><Event Id="E"><Duration>3</Duration></Event></Events>
<Constraints><AssignTimeConstraint Id="c"><Required>true</Required><Weight>0</Weight><CostFunction>Linear</CostFunction>
<AppliesTo><Events><Event Reference="E"/></Events></AppliesTo></AssignTimeConstraint></Constraints>
</Instance></Instances>
<SolutionGroups><SolutionGroup Id="G"><Solution Reference="I"/></SolutionGroup></SolutionGroups>
</HighSchoolTimetableArchive>
"#;

/// An event with a place of a type that no resource has.
pub(crate) const NO_RESOURCE: &str = r#"<HighSchoolTimetableArchive>
<Instances><Instance Id="J">
<Times><Time Id="t0"/></Times>
<Resources><ResourceTypes><ResourceType Id="X"/></ResourceTypes></Resources>
<Events><Event Id="E"><Duration>1</Duration><Resources><Resource><Role>R</Role><ResourceType Reference="X"/></Resource></Resources></Event></Events>
</Instance></Instances>
<SolutionGroups><SolutionGroup Id="H"><Solution Reference="J"/></SolutionGroup></SolutionGroups>
</HighSchoolTimetableArchive>
"#;

/// Two events of one time that stand at each other's time, and share their only resource.
pub(crate) const CROSSED: &str = r#"<HighSchoolTimetableArchive>
<Instances><Instance Id="K">
<Times><Time Id="t0"/><Time Id="t1"/></Times>
<Resources><ResourceTypes><ResourceType Id="X"/></ResourceTypes>
<Resource Id="r0"><ResourceType Reference="X"/></Resource></Resources>
<Events>
<Event Id="F"><Duration>1</Duration><Resources><Resource Reference="r0"/></Resources></Event>
<Event Id="G"><Duration>1</Duration><Resources><Resource Reference="r0"/></Resources></Event>
</Events>
<Constraints>
<PreferTimesConstraint Id="c0"><Required>true</Required><Weight>1</Weight><CostFunction>Linear</CostFunction>
<AppliesTo><Events><Event Reference="F"/></Events></AppliesTo><Times><Time Reference="t0"/></Times></PreferTimesConstraint>
<PreferTimesConstraint Id="c1"><Required>true</Required><Weight>1</Weight><CostFunction>Linear</CostFunction>
<AppliesTo><Events><Event Reference="G"/></Events></AppliesTo><Times><Time Reference="t1"/></Times></PreferTimesConstraint>
<AvoidClashesConstraint Id="c2"><Required>true</Required><Weight>5</Weight><CostFunction>Linear</CostFunction>
<AppliesTo><Resources><Resource Reference="r0"/></Resources></AppliesTo></AvoidClashesConstraint>
</Constraints>
</Instance></Instances>
<SolutionGroups><SolutionGroup Id="G">
<Solution Reference="K"><Events>
<Event Reference="F"><Time Reference="t1"/></Event>
<Event Reference="G"><Time Reference="t0"/></Event>
</Events></Solution>
</SolutionGroup></SolutionGroups>
</HighSchoolTimetableArchive>
"#;

/// Events that are to be split. Its first solution is empty, its second gives each event whole to one
/// resource at times that overlap.
pub(crate) const SPLIT: &str = r#"<HighSchoolTimetableArchive>
<Instances><Instance Id="I">
<Times><Time Id="t0"/><Time Id="t1"/><Time Id="t2"/><Time Id="t3"/></Times>
<Resources><ResourceTypes><ResourceType Id="X"/></ResourceTypes>
<Resource Id="r0"><ResourceType Reference="X"/></Resource>
<Resource Id="r1"><ResourceType Reference="X"/></Resource></Resources>
<Events>
<Event Id="E"><Duration>4</Duration><Resources><Resource><Role>R</Role><ResourceType Reference="X"/></Resource></Resources></Event>
<Event Id="F"><Duration>2</Duration><Resources><Resource><Role>R</Role><ResourceType Reference="X"/></Resource></Resources></Event>
</Events>
<Constraints>
<AssignTimeConstraint Id="c0"><Required>true</Required><Weight>1</Weight><CostFunction>Linear</CostFunction>
<AppliesTo><Events><Event Reference="E"/><Event Reference="F"/></Events></AppliesTo></AssignTimeConstraint>
<SplitEventsConstraint Id="c1"><Required>true</Required><Weight>3</Weight><CostFunction>Linear</CostFunction>
<AppliesTo><Events><Event Reference="E"/><Event Reference="F"/></Events></AppliesTo>
<MinimumDuration>1</MinimumDuration><MaximumDuration>2</MaximumDuration><MinimumAmount>2</MinimumAmount><MaximumAmount>3</MaximumAmount></SplitEventsConstraint>
<AvoidClashesConstraint Id="c2"><Required>true</Required><Weight>2</Weight><CostFunction>Quadratic</CostFunction>
<AppliesTo><Resources><Resource Reference="r0"/><Resource Reference="r1"/></Resources></AppliesTo></AvoidClashesConstraint>
<AssignResourceConstraint Id="c3"><Required>false</Required><Weight>1</Weight><CostFunction>Linear</CostFunction>
<AppliesTo><Events><Event Reference="E"/><Event Reference="F"/></Events></AppliesTo><Role>R</Role></AssignResourceConstraint>
<PreferTimesConstraint Id="c4"><Required>false</Required><Weight>2</Weight><CostFunction>Linear</CostFunction>
<AppliesTo><Events><Event Reference="F"/></Events></AppliesTo><Times><Time Reference="t3"/></Times></PreferTimesConstraint>
</Constraints>
</Instance></Instances>
<SolutionGroups><SolutionGroup Id="G"><Solution Reference="I"/>
<Solution Reference="I"><Events>
<Event Reference="E"><Duration>4</Duration><Time Reference="t0"/><Resources><Resource Reference="r0"><Role>R</Role></Resource></Resources></Event>
<Event Reference="F"><Duration>2</Duration><Time Reference="t1"/><Resources><Resource Reference="r0"><Role>R</Role></Resource></Resources></Event>
</Events></Solution>
</SolutionGroup></SolutionGroups>
</HighSchoolTimetableArchive>
"#;

/// An event without a place that is to be cut, whole in its solution.
pub(crate) const TO_CUT: &str = r#"<HighSchoolTimetableArchive>
<Instances><Instance Id="I">
<Times><Time Id="t0"/><Time Id="t1"/><Time Id="t2"/></Times>
<Events><Event Id="E"><Duration>3</Duration></Event></Events>
<Constraints><SplitEventsConstraint Id="c"><Required>true</Required><Weight>2</Weight><CostFunction>Linear</CostFunction>
<AppliesTo><Events><Event Reference="E"/></Events></AppliesTo><MinimumAmount>2</MinimumAmount></SplitEventsConstraint></Constraints>
</Instance></Instances>
<SolutionGroups><SolutionGroup Id="G"><Solution Reference="I"/></SolutionGroup></SolutionGroups>
</HighSchoolTimetableArchive>
"#;

/// The same event, which is to be whole and is cut in its solution.
pub(crate) const TO_JOIN: &str = r#"<HighSchoolTimetableArchive>
<Instances><Instance Id="I">
<Times><Time Id="t0"/><Time Id="t1"/><Time Id="t2"/></Times>
<Events><Event Id="E"><Duration>3</Duration></Event></Events>
<Constraints><SplitEventsConstraint Id="c"><Required>true</Required><Weight>2</Weight><CostFunction>Linear</CostFunction>
<AppliesTo><Events><Event Reference="E"/></Events></AppliesTo><MaximumAmount>1</MaximumAmount></SplitEventsConstraint></Constraints>
</Instance></Instances>
<SolutionGroups><SolutionGroup Id="G"><Solution Reference="I"><Events><Event Reference="E"><Duration>1</Duration></Event><Event Reference="E"><Duration>2</Duration></Event></Events></Solution></SolutionGroup></SolutionGroups>
</HighSchoolTimetableArchive>
"#;
