//! The texts of archives.

/// An archive with an event `E` of three times and an event `F` of one, each with a place for one of
/// two resources of one type. Its first solution is empty, its second gives both a start and a
/// resource.
pub(crate) const SMALL: &str = r#"<HighSchoolTimetableArchive>
<Instances><Instance Id="J">
<Times><Time Id="t0"/><Time Id="t1"/><Time Id="t2"/></Times>
<Resources><ResourceTypes><ResourceType Id="X"/></ResourceTypes>
<Resource Id="r0"><ResourceType Reference="X"/></Resource>
<Resource Id="r1"><ResourceType Reference="X"/></Resource></Resources>
<Events>
<Event Id="E"><Duration>3</Duration><Resources><Resource><Role>R</Role><ResourceType Reference="X"/></Resource></Resources></Event>
<Event Id="F"><Duration>1</Duration><Resources><Resource><Role>R</Role><ResourceType Reference="X"/></Resource></Resources></Event>
</Events>
<Constraints>
<AssignTimeConstraint Id="c0"><Required>true</Required><Weight>2</Weight><CostFunction>Linear</CostFunction>
<AppliesTo><Events><Event Reference="E"/><Event Reference="F"/></Events></AppliesTo></AssignTimeConstraint>
<AssignResourceConstraint Id="c1"><Required>true</Required><Weight>1</Weight><CostFunction>Linear</CostFunction>
<AppliesTo><Events><Event Reference="E"/><Event Reference="F"/></Events></AppliesTo><Role>R</Role></AssignResourceConstraint>
<AvoidClashesConstraint Id="c2"><Required>true</Required><Weight>5</Weight><CostFunction>Linear</CostFunction>
<AppliesTo><Resources><Resource Reference="r0"/><Resource Reference="r1"/></Resources></AppliesTo></AvoidClashesConstraint>
<PreferTimesConstraint Id="c3"><Required>false</Required><Weight>3</Weight><CostFunction>Linear</CostFunction>
<AppliesTo><Events><Event Reference="F"/></Events></AppliesTo><Times><Time Reference="t0"/></Times></PreferTimesConstraint>
</Constraints>
</Instance></Instances>
<SolutionGroups><SolutionGroup Id="H">
<Solution Reference="J"/>
<Solution Reference="J"><Events>
<Event Reference="E"><Time Reference="t0"/><Resources><Resource Reference="r0"><Role>R</Role></Resource></Resources></Event>
<Event Reference="F"><Time Reference="t0"/><Resources><Resource Reference="r1"><Role>R</Role></Resource></Resources></Event>
</Events></Solution>
</SolutionGroup></SolutionGroups>
</HighSchoolTimetableArchive>
"#;

/// An archive of five times, with two resources of a type `X` and one of a type `Y`. Event `E` has
/// four times and two places of type `X`; `F` has two times, a place of type `X` and a place with a
/// preassigned resource; `G` has two times, a preassigned time and a place of type `X`; and `H` has
/// one time and a place of type `Y`. Its only solution is empty.
pub(crate) const MIXED: &str = r#"<HighSchoolTimetableArchive>
<Instances><Instance Id="M">
<Times><Time Id="t0"/><Time Id="t1"/><Time Id="t2"/><Time Id="t3"/><Time Id="t4"/></Times>
<Resources><ResourceTypes><ResourceType Id="X"/><ResourceType Id="Y"/></ResourceTypes>
<Resource Id="r0"><ResourceType Reference="X"/></Resource>
<Resource Id="r1"><ResourceType Reference="X"/></Resource>
<Resource Id="r2"><ResourceType Reference="Y"/></Resource></Resources>
<Events>
<Event Id="E"><Duration>4</Duration><Resources><Resource><Role>R</Role><ResourceType Reference="X"/></Resource>
<Resource><Role>S</Role><ResourceType Reference="X"/></Resource></Resources></Event>
<Event Id="F"><Duration>2</Duration><Resources><Resource><Role>R</Role><ResourceType Reference="X"/></Resource>
<Resource Reference="r2"/></Resources></Event>
<Event Id="G"><Duration>2</Duration><Time Reference="t1"/><Resources><Resource><Role>R</Role><ResourceType Reference="X"/></Resource></Resources></Event>
<Event Id="H"><Duration>1</Duration><Resources><Resource><Role>R</Role><ResourceType Reference="Y"/></Resource></Resources></Event>
</Events>
</Instance></Instances>
<SolutionGroups><SolutionGroup Id="N"><Solution Reference="M"/></SolutionGroup></SolutionGroups>
</HighSchoolTimetableArchive>
"#;
