//! The texts of archives.

use program_runs::Piece;
use program_runs::Piece::{Numbered, Once};

/// The archive of two events, but that each event has its time in the first solution.
pub(crate) const TIMED: &str = r#"<HighSchoolTimetableArchive>
<Instances><Instance Id="J">
<Times><Time Id="t0"/><Time Id="t1"/><Time Id="t2"/></Times>
<Resources><ResourceTypes><ResourceType Id="X"/></ResourceTypes>
<Resource Id="r0"><ResourceType Reference="X"/></Resource>
<Resource Id="r1"><ResourceType Reference="X"/></Resource></Resources>
<Events>
<Event Id="E"><Duration>3</Duration><Resources><Resource><Role>R</Role><ResourceType Reference="X"/></Resource></Resources></Event>
<Event Id="F"><Duration>1</Duration><Resources><Resource><Role>R</Role><ResourceType Reference="X"/></Resource></Resources></Event>
</Events>
<Constraints>
<AssignTimeConstraint Id="c0"><Required>true</Required><Weight>2</Weight><CostFunction>Linear</CostFunction>
<AppliesTo><Events><Event Reference="E"/><Event Reference="F"/></Events></AppliesTo></AssignTimeConstraint>
<AssignResourceConstraint Id="c1"><Required>true</Required><Weight>1</Weight><CostFunction>Linear</CostFunction>
<AppliesTo><Events><Event Reference="E"/><Event Reference="F"/></Events></AppliesTo><Role>R</Role></AssignResourceConstraint>
<AvoidClashesConstraint Id="c2"><Required>true</Required><Weight>5</Weight><CostFunction>Linear</CostFunction>
<AppliesTo><Resources><Resource Reference="r0"/><Resource Reference="r1"/></Resources></AppliesTo></AvoidClashesConstraint>
<PreferTimesConstraint Id="c3"><Required>false</Required><Weight>3</Weight><CostFunction>Linear</CostFunction>
<AppliesTo><Events><Event Reference="F"/></Events></AppliesTo><Times><Time Reference="t0"/></Times></PreferTimesConstraint>
</Constraints>
</Instance></Instances>
<SolutionGroups><SolutionGroup Id="H">
<Solution Reference="J"><Events>
<Event Reference="E"><Time Reference="t0"/></Event>
<Event Reference="F"><Time Reference="t0"/></Event>
</Events></Solution>
<Solution Reference="J"><Events>
<Event Reference="E"><Time Reference="t0"/><Resources><Resource Reference="r0"><Role>R</Role></Resource></Resources></Event>
<Event Reference="F"><Time Reference="t0"/><Resources><Resource Reference="r1"><Role>R</Role></Resource></Resources></Event>
</Events></Solution>
</SolutionGroup></SolutionGroups>
</HighSchoolTimetableArchive>
"#;

/// An event without a place that is to be cut.
pub(crate) const TO_CUT: &str = r#"<HighSchoolTimetableArchive>
<Instances><Instance Id="I">
<Times><Time Id="t0"/><Time Id="t1"/><Time Id="t2"/></Times>
<Events><Event Id="E"><Duration>3</Duration></Event></Events>
<Constraints><SplitEventsConstraint Id="c"><Required>true</Required><Weight>2</Weight><CostFunction>Linear</CostFunction>
<AppliesTo><Events><Event Reference="E"/></Events></AppliesTo><MinimumAmount>2</MinimumAmount></SplitEventsConstraint></Constraints>
</Instance></Instances>
<SolutionGroups><SolutionGroup Id="G"><Solution Reference="I"/></SolutionGroup></SolutionGroups>
</HighSchoolTimetableArchive>
"#;

/// Events that are to be cut. No even cut keeps the bounds of `Whole`; those of `Rest` want a part that is shorter;
/// `Both` has two constraints, of which one costs nothing; `Fixed` has a time of its own, and no constraint asks
/// for a time or for a resource of `Loose`.
pub(crate) const CUTS: &str = r#"<HighSchoolTimetableArchive>
<Instances><Instance Id="C">
<Times><Time Id="t0"/><Time Id="t1"/><Time Id="t2"/><Time Id="t3"/><Time Id="t4"/><Time Id="t5"/><Time Id="t6"/><Time Id="t7"/></Times>
<Resources><ResourceTypes><ResourceType Id="X"/><ResourceType Id="Y"/></ResourceTypes>
<Resource Id="y0"><ResourceType Reference="Y"/></Resource>
<Resource Id="r0"><ResourceType Reference="X"/></Resource>
<Resource Id="r1"><ResourceType Reference="X"/></Resource>
<Resource Id="c0"><ResourceType Reference="Y"/></Resource></Resources>
<Events>
<Event Id="Fixed"><Duration>2</Duration><Time Reference="t1"/><Resources><Resource Reference="c0"/></Resources></Event>
<Event Id="Both"><Duration>4</Duration><Resources><Resource Reference="c0"/></Resources></Event>
<Event Id="Rest"><Duration>5</Duration><Resources><Resource Reference="c0"/><Resource><Role>R</Role><ResourceType Reference="X"/></Resource></Resources></Event>
<Event Id="Whole"><Duration>3</Duration><Resources><Resource Reference="c0"/><Resource><Role>R</Role><ResourceType Reference="X"/></Resource></Resources></Event>
<Event Id="Loose"><Duration>1</Duration><Resources><Resource><Role>R</Role><ResourceType Reference="X"/></Resource></Resources></Event>
</Events>
<Constraints>
<SplitEventsConstraint Id="few"><Required>false</Required><Weight>0</Weight><CostFunction>Linear</CostFunction>
<AppliesTo><Events><Event Reference="Both"/></Events></AppliesTo><MinimumAmount>3</MinimumAmount></SplitEventsConstraint>
<SplitEventsConstraint Id="short"><Required>true</Required><Weight>1</Weight><CostFunction>Linear</CostFunction>
<AppliesTo><Events><Event Reference="Fixed"/><Event Reference="Both"/><Event Reference="Rest"/></Events></AppliesTo><MaximumDuration>2</MaximumDuration></SplitEventsConstraint>
<SplitEventsConstraint Id="double"><Required>true</Required><Weight>1</Weight><CostFunction>Linear</CostFunction>
<AppliesTo><Events><Event Reference="Whole"/></Events></AppliesTo><MinimumDuration>2</MinimumDuration><MaximumDuration>2</MaximumDuration></SplitEventsConstraint>
<AssignTimeConstraint Id="placed"><Required>true</Required><Weight>1</Weight><CostFunction>Linear</CostFunction>
<AppliesTo><Events><Event Reference="Both"/><Event Reference="Rest"/><Event Reference="Whole"/></Events></AppliesTo></AssignTimeConstraint>
<AvoidClashesConstraint Id="apart"><Required>true</Required><Weight>2</Weight><CostFunction>Linear</CostFunction>
<AppliesTo><Resources><Resource Reference="c0"/><Resource Reference="r0"/></Resources></AppliesTo></AvoidClashesConstraint>
<AssignResourceConstraint Id="taught"><Required>false</Required><Weight>1</Weight><CostFunction>Linear</CostFunction>
<AppliesTo><Events><Event Reference="Rest"/><Event Reference="Whole"/></Events></AppliesTo><Role>R</Role></AssignResourceConstraint>
<PreferResourcesConstraint Id="own"><Required>false</Required><Weight>1</Weight><CostFunction>Linear</CostFunction>
<AppliesTo><Events><Event Reference="Whole"/></Events></AppliesTo><Resources><Resource Reference="r1"/></Resources><Role>R</Role></PreferResourcesConstraint>
</Constraints>
</Instance></Instances>
<SolutionGroups><SolutionGroup Id="H">
<Solution Reference="C"><Events>
<Event Reference="Whole"><Time Reference="t2"/></Event>
</Events></Solution>
</SolutionGroup></SolutionGroups>
</HighSchoolTimetableArchive>
"#;

/// Two instances, and a solution of the first one that is invalid. In the second one the longer event is the first to
/// take a time, which the other one wants.
pub(crate) const TWO: &str = r#"<HighSchoolTimetableArchive Id="Two">
<MetaData><Name>Both</Name></MetaData>
<Instances>
<Instance Id="I"><Times><Time Id="t0"/><Time Id="t1"/></Times>
<Events><Event Id="E"><Duration>2</Duration></Event></Events></Instance>
<Instance Id="K"><Times><Time Id="t0"/><Time Id="t1"/><Time Id="t2"/><Time Id="t3"/></Times>
<Resources><ResourceTypes><ResourceType Id="Y"/></ResourceTypes>
<Resource Id="c0"><ResourceType Reference="Y"/></Resource></Resources>
<Events>
<Event Id="E"><Duration>2</Duration><Resources><Resource Reference="c0"/></Resources></Event>
<Event Id="F"><Duration>1</Duration><Resources><Resource Reference="c0"/></Resources></Event>
</Events>
<Constraints>
<AssignTimeConstraint Id="placed"><Required>true</Required><Weight>9</Weight><CostFunction>Linear</CostFunction>
<AppliesTo><Events><Event Reference="E"/><Event Reference="F"/></Events></AppliesTo></AssignTimeConstraint>
<AvoidClashesConstraint Id="apart"><Required>true</Required><Weight>5</Weight><CostFunction>Linear</CostFunction>
<AppliesTo><Resources><Resource Reference="c0"/></Resources></AppliesTo></AvoidClashesConstraint>
<PreferTimesConstraint Id="first"><Required>true</Required><Weight>3</Weight><CostFunction>Linear</CostFunction>
<AppliesTo><Events><Event Reference="F"/></Events></AppliesTo><Times><Time Reference="t0"/></Times></PreferTimesConstraint>
</Constraints></Instance>
</Instances>
<SolutionGroups><SolutionGroup Id="H">
<Solution Reference="I"><Events>
<Event Reference="E"><Time Reference="t1"/></Event>
</Events></Solution>
</SolutionGroup></SolutionGroups>
</HighSchoolTimetableArchive>
"#;

/// Five events without entries, of which one has a time of its own.
pub(crate) const TIES: &str = r#"<HighSchoolTimetableArchive>
<Instances><Instance Id="T">
<Times><Time Id="t0"/><Time Id="t1"/><Time Id="t2"/><Time Id="t3"/><Time Id="t4"/><Time Id="t5"/><Time Id="t6"/><Time Id="t7"/></Times>
<Resources><ResourceTypes><ResourceType Id="X"/></ResourceTypes>
<Resource Id="r0"><ResourceType Reference="X"/></Resource></Resources>
<Events>
<Event Id="E"><Duration>3</Duration><Resources><Resource><Role>R</Role><ResourceType Reference="X"/></Resource></Resources></Event>
<Event Id="F"><Duration>1</Duration><Resources><Resource><Role>R</Role><ResourceType Reference="X"/></Resource></Resources></Event>
<Event Id="G"><Duration>2</Duration></Event>
<Event Id="H"><Duration>2</Duration><Time Reference="t3"/></Event>
<Event Id="K"><Duration>1</Duration></Event>
</Events>
<Constraints>
<AssignTimeConstraint Id="placed"><Required>true</Required><Weight>2</Weight><CostFunction>Linear</CostFunction>
<AppliesTo><Events><Event Reference="E"/><Event Reference="F"/><Event Reference="G"/><Event Reference="K"/></Events></AppliesTo></AssignTimeConstraint>
<AvoidClashesConstraint Id="apart"><Required>true</Required><Weight>5</Weight><CostFunction>Linear</CostFunction>
<AppliesTo><Resources><Resource Reference="r0"/></Resources></AppliesTo></AvoidClashesConstraint>
<PreferTimesConstraint Id="early"><Required>false</Required><Weight>3</Weight><CostFunction>Linear</CostFunction>
<AppliesTo><Events><Event Reference="F"/><Event Reference="K"/></Events></AppliesTo><Times><Time Reference="t0"/><Time Reference="t1"/></Times></PreferTimesConstraint>
</Constraints>
</Instance></Instances>
<SolutionGroups><SolutionGroup Id="H">
<Solution Reference="T"/>
</SolutionGroup></SolutionGroups>
</HighSchoolTimetableArchive>
"#;

/// Three events with a place for a resource of one type: two run at the second time, and there `F` has a place of
/// another type besides; at the third time no resource may be busy. Two solutions.
pub(crate) const CHOICE: &str = r#"<HighSchoolTimetableArchive>
<Instances><Instance Id="M">
<Times><Time Id="t0"/><Time Id="t1"/><Time Id="t2"/></Times>
<Resources><ResourceTypes><ResourceType Id="X"/><ResourceType Id="Y"/></ResourceTypes>
<Resource Id="y0"><ResourceType Reference="Y"/></Resource>
<Resource Id="r0"><ResourceType Reference="X"/></Resource>
<Resource Id="r1"><ResourceType Reference="X"/></Resource></Resources>
<Events>
<Event Id="E"><Duration>2</Duration><Resources><Resource Reference="r0"/><Resource><Role>R</Role><ResourceType Reference="X"/></Resource></Resources></Event>
<Event Id="F"><Duration>1</Duration><Resources><Resource><Role>R</Role><ResourceType Reference="X"/></Resource><Resource><Role>Z</Role><ResourceType Reference="Y"/></Resource></Resources></Event>
<Event Id="G"><Duration>1</Duration><Resources><Resource><Role>R</Role><ResourceType Reference="X"/></Resource></Resources></Event>
</Events>
<Constraints>
<AssignResourceConstraint Id="taught"><Required>true</Required><Weight>9</Weight><CostFunction>Linear</CostFunction>
<AppliesTo><Events><Event Reference="E"/><Event Reference="F"/><Event Reference="G"/></Events></AppliesTo><Role>R</Role></AssignResourceConstraint>
<PreferResourcesConstraint Id="first"><Required>true</Required><Weight>1</Weight><CostFunction>Linear</CostFunction>
<AppliesTo><Events><Event Reference="E"/></Events></AppliesTo><Resources><Resource Reference="r0"/></Resources><Role>R</Role></PreferResourcesConstraint>
<PreferResourcesConstraint Id="own"><Required>true</Required><Weight>4</Weight><CostFunction>Linear</CostFunction>
<AppliesTo><Events><Event Reference="F"/></Events></AppliesTo><Resources><Resource Reference="r0"/></Resources><Role>R</Role></PreferResourcesConstraint>
<AvoidUnavailableTimesConstraint Id="away"><Required>true</Required><Weight>20</Weight><CostFunction>Linear</CostFunction>
<AppliesTo><Resources><Resource Reference="r0"/><Resource Reference="r1"/></Resources></AppliesTo><Times><Time Reference="t2"/></Times></AvoidUnavailableTimesConstraint>
</Constraints>
</Instance></Instances>
<SolutionGroups><SolutionGroup Id="H">
<Solution Reference="M"><Events>
<Event Reference="E"><Time Reference="t0"/><Resources><Resource Reference="r0"><Role>R</Role></Resource></Resources></Event>
<Event Reference="F"><Time Reference="t1"/><Resources><Resource Reference="r1"><Role>R</Role></Resource></Resources></Event>
<Event Reference="G"><Time Reference="t2"/><Resources><Resource Reference="r0"><Role>R</Role></Resource></Resources></Event>
</Events></Solution>
<Solution Reference="M"><Events>
<Event Reference="E"><Time Reference="t0"/><Resources><Resource Reference="r1"><Role>R</Role></Resource></Resources></Event>
<Event Reference="F"><Time Reference="t1"/><Resources><Resource Reference="r0"><Role>R</Role></Resource></Resources></Event>
<Event Reference="G"><Time Reference="t2"/></Event>
</Events></Solution>
</SolutionGroup></SolutionGroups>
</HighSchoolTimetableArchive>
"#;

/// An event before its places.
const CROWD_FRONT: &str = r#"<HighSchoolTimetableArchive>
<Instances><Instance Id="L"><Times><Time Id="t"/></Times>
<Resources><ResourceTypes><ResourceType Id="X"/></ResourceTypes>
<Resource Id="r"><ResourceType Reference="X"/></Resource></Resources>
<Events><Event Id="E"><Duration>1</Duration><Time Reference="t"/><Resources>
"#;

/// The event behind its places, of which the one with the role `R7` is to have the only resource.
const CROWD_END: &str = r#"</Resources></Event></Events>
<Constraints><AssignResourceConstraint Id="c"><Required>true</Required><Weight>3</Weight><CostFunction>Linear</CostFunction>
<AppliesTo><Events><Event Reference="E"/></Events></AppliesTo><Role>R7</Role></AssignResourceConstraint></Constraints></Instance></Instances>
<SolutionGroups><SolutionGroup Id="H">
<Solution Reference="L"/>
</SolutionGroup></SolutionGroups>
</HighSchoolTimetableArchive>
"#;

/// An event with as many places as can be matched at once.
pub(crate) const CROWD: &[Piece] = &[
    Once(CROWD_FRONT),
    Numbered(
        200,
        "<Resource><Role>R",
        "</Role><ResourceType Reference=\"X\"/></Resource>\n",
    ),
    Once(CROWD_END),
];

/// The same with one place more.
pub(crate) const TOO_LARGE_CROWD: &[Piece] = &[
    Once(CROWD_FRONT),
    Numbered(
        201,
        "<Resource><Role>R",
        "</Role><ResourceType Reference=\"X\"/></Resource>\n",
    ),
    Once(CROWD_END),
];
