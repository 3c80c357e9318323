//! Archives with their canonical spelling.

use std::alloc::Global;
use std::test::Fail;
use xhstt_shape::reading::archive;
use xhstt_text::elements;
use xhstt_writer::write;

/// An archive with an Id that is to be escaped, and its canonical spelling.
const ESCAPED: (&[u8], &[u8]) = (
    b"<HighSchoolTimetableArchive Id=\"a&amp;&#9;b\"/>",
    b"<?xml version=\"1.0\" encoding=\"UTF-8\"?>\n<HighSchoolTimetableArchive Id=\"a&amp;&#9;b\"/>\n",
);

/// An archive with each sort of list, and its canonical spelling.
const LISTS: (&[u8], &[u8]) = (
    b"<HighSchoolTimetableArchive Id='A'><Instances><Instance Id='I'><Times><TimeGroups><Week Id='w'/>\
<TimeGroup Id='g'><Name> G </Name></TimeGroup><Day Id='d'/></TimeGroups><Time Id='t'>\
<Week Reference='w'/><TimeGroups><TimeGroup Reference='g'/></TimeGroups></Time></Times><Resources>\
<ResourceTypes><ResourceType Id='y'/></ResourceTypes><Resource Id='r'><ResourceType Reference='y'/>\
</Resource></Resources><Events><EventGroups><Course Id='c'/></EventGroups><Event Id='e' Color='red'>\
<Duration> 007 </Duration><Resources><Resource><Role> Teacher </Role><ResourceType Reference='y'/>\
</Resource></Resources></Event></Events><Constraints><LimitBusyTimesConstraint Id='k'><Required>\
true</Required><Weight>1000000</Weight><CostFunction>Step</CostFunction><AppliesTo><Resources>\
<Resource Reference='r'/></Resources></AppliesTo><Minimum>2</Minimum></LimitBusyTimesConstraint>\
</Constraints></Instance></Instances><SolutionGroups><SolutionGroup Id='s'><Solution Reference='I'>\
<Events><Event Reference='e'><Time Reference='t'/></Event></Events><Report>x</Report></Solution>\
</SolutionGroup></SolutionGroups></HighSchoolTimetableArchive>",
    b"<?xml version=\"1.0\" encoding=\"UTF-8\"?>\n<HighSchoolTimetableArchive Id=\"A\">\n<Instances>\n\
<Instance Id=\"I\">\n<Times>\n<TimeGroups>\n<Week Id=\"w\"/>\n<TimeGroup Id=\"g\">\n\
<Name> G </Name>\n</TimeGroup>\n<Day Id=\"d\"/>\n</TimeGroups>\n<Time Id=\"t\">\n<Week Reference=\"w\"/>\n\
<TimeGroups>\n<TimeGroup Reference=\"g\"/>\n</TimeGroups>\n</Time>\n</Times>\n<Resources>\n\
<ResourceTypes>\n<ResourceType Id=\"y\"/>\n</ResourceTypes>\n<Resource Id=\"r\">\n\
<ResourceType Reference=\"y\"/>\n</Resource>\n</Resources>\n<Events>\n<EventGroups>\n\
<Course Id=\"c\"/>\n</EventGroups>\n<Event Id=\"e\" Color=\"red\">\n<Duration>7</Duration>\n\
<Resources>\n<Resource>\n<Role>Teacher</Role>\n<ResourceType Reference=\"y\"/>\n</Resource>\n\
</Resources>\n</Event>\n</Events>\n<Constraints>\n<LimitBusyTimesConstraint Id=\"k\">\n<Required>\
true</Required>\n<Weight>1000000</Weight>\n<CostFunction>Step</CostFunction>\n<AppliesTo>\n\
<Resources>\n<Resource Reference=\"r\"/>\n</Resources>\n</AppliesTo>\n<Minimum>2</Minimum>\n\
<Maximum>2147483647</Maximum>\n</LimitBusyTimesConstraint>\n</Constraints>\n</Instance>\n\
</Instances>\n<SolutionGroups>\n<SolutionGroup Id=\"s\">\n<Solution Reference=\"I\">\n<Events>\n\
<Event Reference=\"e\">\n<Time Reference=\"t\"/>\n</Event>\n</Events>\n</Solution>\n\
</SolutionGroup>\n</SolutionGroups>\n</HighSchoolTimetableArchive>\n",
);

/// An archive with names and descriptions, and its canonical spelling.
const NAMES: (&[u8], &[u8]) = (
    b"<HighSchoolTimetableArchive><MetaData><Name>N &amp; M</Name><Contributor/><Date>1.1.</Date>\
<Description>a&lt;b&#10;c</Description></MetaData><Instances><Instance Id=\"I\"><MetaData><Name>\
I</Name><Contributor>C</Contributor><Date>D</Date><Country>L</Country><Description/></MetaData>\
<Times><TimeGroups><TimeGroup Id=\"g\"><Name>G</Name></TimeGroup></TimeGroups><Time Id=\"t\"><Name>\
T</Name><TimeGroups><TimeGroup Reference=\"g\"/></TimeGroups></Time></Times><Resources>\
<ResourceTypes><ResourceType Id=\"y\"><Name>Y</Name></ResourceType></ResourceTypes><ResourceGroups>\
<ResourceGroup Id=\"q\"><Name>Q</Name><ResourceType Reference=\"y\"/></ResourceGroup>\
</ResourceGroups><Resource Id=\"r\"><Name>R</Name><ResourceType Reference=\"y\"/><ResourceGroups>\
<ResourceGroup Reference=\"q\"/></ResourceGroups></Resource></Resources><Events><Event Id=\"e\">\
<Name>E</Name><Duration>1</Duration><Workload>3</Workload><Time Reference=\"t\"/><Resources>\
<Resource Reference=\"r\"><Role>A</Role><ResourceType Reference=\"y\"/><Workload>4</Workload>\
</Resource></Resources></Event></Events></Instance></Instances></HighSchoolTimetableArchive>",
    b"<?xml version=\"1.0\" encoding=\"UTF-8\"?>\n<HighSchoolTimetableArchive>\n<MetaData>\n<Name>\
N &amp; M</Name>\n<Contributor/>\n<Date>1.1.</Date>\n<Description>a&lt;b&#10;c</Description>\n\
</MetaData>\n<Instances>\n<Instance Id=\"I\">\n<MetaData>\n<Name>I</Name>\n<Contributor>\
C</Contributor>\n<Date>D</Date>\n<Country>L</Country>\n<Description/>\n</MetaData>\n<Times>\n\
<TimeGroups>\n<TimeGroup Id=\"g\">\n<Name>G</Name>\n</TimeGroup>\n</TimeGroups>\n<Time Id=\"t\">\n\
<Name>T</Name>\n<TimeGroups>\n<TimeGroup Reference=\"g\"/>\n</TimeGroups>\n</Time>\n</Times>\n\
<Resources>\n<ResourceTypes>\n<ResourceType Id=\"y\">\n<Name>Y</Name>\n</ResourceType>\n\
</ResourceTypes>\n<ResourceGroups>\n<ResourceGroup Id=\"q\">\n<Name>Q</Name>\n\
<ResourceType Reference=\"y\"/>\n</ResourceGroup>\n</ResourceGroups>\n<Resource Id=\"r\">\n<Name>\
R</Name>\n<ResourceType Reference=\"y\"/>\n<ResourceGroups>\n<ResourceGroup Reference=\"q\"/>\n\
</ResourceGroups>\n</Resource>\n</Resources>\n<Events>\n<Event Id=\"e\">\n<Name>E</Name>\n<Duration>\
1</Duration>\n<Workload>3</Workload>\n<Time Reference=\"t\"/>\n<Resources>\n\
<Resource Reference=\"r\">\n<Role>A</Role>\n<ResourceType Reference=\"y\"/>\n<Workload>\
4</Workload>\n</Resource>\n</Resources>\n</Event>\n</Events>\n</Instance>\n</Instances>\n\
</HighSchoolTimetableArchive>\n",
);

/// Whether a text, which is short, is read as an archive that is written so.
fn is_written_so(alloc: Global, text: &[u8], canonical: &[u8]) -> Result<bool, Fail> {
    if text.len() > 10_000 {
        return Ok(false);
    }
    let tree = elements(alloc, text)?;
    let archive = archive(alloc, &tree)?;
    let written = write(alloc, &archive)?;
    Ok(written.as_slice() == canonical)
}

#[test]
fn archives_are_written(rt: HostRuntime) -> Result<(), Fail> {
    for (text, canonical) in [ESCAPED, LISTS, NAMES] {
        assert!(rt; is_written_so(rt.alloc(), text, canonical)?);
        assert!(rt; is_written_so(rt.alloc(), canonical, canonical)?);
    }
    Ok(())
}
