//! Texts that are refused as archives.

use fault_tables::{BAD_NUMBER, BAD_WORD, MISSING_CHILD, REPEATED_CHILD, UNKNOWN_ELEMENT};
use std::alloc::Global;
use xhstt_shape::ShapeFault;
use xhstt_shape::reading::archive;
use xhstt_text::elements;

/// Texts that are no archives, each with the kind and the place of its first fault.
const REFUSED: &[(&[u8], u32, u64)] = &[
    // Another outermost name.
    (b"<Archive/>", UNKNOWN_ELEMENT, 0),
    // An unknown attribute.
    (
        b"<HighSchoolTimetableArchive Name=\"x\"></HighSchoolTimetableArchive>",
        UNKNOWN_ELEMENT,
        28,
    ),
    // An unknown attribute after a known one.
    (
        b"<HighSchoolTimetableArchive Id=\"a\" Name=\"x\"></HighSchoolTimetableArchive>",
        UNKNOWN_ELEMENT,
        35,
    ),
    // An unknown attribute before a missing one.
    (
        b"<HighSchoolTimetableArchive><Instances><Instance Name=\"x\"/></Instances></HighSchoolTimetableArchive>",
        UNKNOWN_ELEMENT,
        49,
    ),
    // A missing attribute.
    (
        b"<HighSchoolTimetableArchive><Instances><Instance/></Instances></HighSchoolTimetableArchive>",
        MISSING_CHILD,
        39,
    ),
    // A missing attribute before loose text.
    (
        b"<HighSchoolTimetableArchive><Instances><Instance>text<X/></Instance></Instances></HighSchoolTimetableArchive>",
        MISSING_CHILD,
        39,
    ),
    // Loose text.
    (
        b"<HighSchoolTimetableArchive>  text</HighSchoolTimetableArchive>",
        BAD_WORD,
        30,
    ),
    // Loose text before an unknown child.
    (
        b"<HighSchoolTimetableArchive><X/>text</HighSchoolTimetableArchive>",
        BAD_WORD,
        32,
    ),
    // Loose text in a list.
    (
        b"<HighSchoolTimetableArchive><Instances> ; </Instances></HighSchoolTimetableArchive>",
        BAD_WORD,
        40,
    ),
    // Loose text in a reference.
    (
        b"<HighSchoolTimetableArchive><Instances><Instance Id=\"I\"><Times><Time Id=\"t\"><Week Reference=\"w\">x</Week></Time></Times></Instance></Instances></HighSchoolTimetableArchive>",
        BAD_WORD,
        96,
    ),
    // An unknown child.
    (
        b"<HighSchoolTimetableArchive><Times/></HighSchoolTimetableArchive>",
        UNKNOWN_ELEMENT,
        28,
    ),
    // An unknown child before a repeated one.
    (
        b"<HighSchoolTimetableArchive><Instances/><X/><Instances/></HighSchoolTimetableArchive>",
        UNKNOWN_ELEMENT,
        40,
    ),
    // A repeated child before a later unknown one.
    (
        b"<HighSchoolTimetableArchive><Instances/><Instances/><X/></HighSchoolTimetableArchive>",
        REPEATED_CHILD,
        40,
    ),
    // A repeated child that is faulty itself.
    (
        b"<HighSchoolTimetableArchive><MetaData/><MetaData X=\"1\"/></HighSchoolTimetableArchive>",
        REPEATED_CHILD,
        39,
    ),
    // A repeated child after the fault of the first.
    (
        b"<HighSchoolTimetableArchive><MetaData X=\"1\"/><MetaData/></HighSchoolTimetableArchive>",
        UNKNOWN_ELEMENT,
        38,
    ),
    // A child of another row.
    (
        b"<HighSchoolTimetableArchive><MetaData><Role>a</Role></MetaData></HighSchoolTimetableArchive>",
        UNKNOWN_ELEMENT,
        38,
    ),
    // A child of a text.
    (
        b"<HighSchoolTimetableArchive><MetaData><Name>a<b/></Name></MetaData></HighSchoolTimetableArchive>",
        UNKNOWN_ELEMENT,
        45,
    ),
    // An attribute of a text.
    (
        b"<HighSchoolTimetableArchive><MetaData><Name Id=\"x\">a</Name></MetaData></HighSchoolTimetableArchive>",
        UNKNOWN_ELEMENT,
        44,
    ),
    // Two names of a day.
    (
        b"<HighSchoolTimetableArchive><Instances><Instance Id=\"I\"><Times><TimeGroups><Day Id=\"d\"><Name>a</Name><Name>b</Name></Day></TimeGroups></Times></Instance></Instances></HighSchoolTimetableArchive>",
        REPEATED_CHILD,
        101,
    ),
    // A week without an Id.
    (
        b"<HighSchoolTimetableArchive><Instances><Instance Id=\"I\"><Times><TimeGroups><Week/></TimeGroups></Times></Instance></Instances></HighSchoolTimetableArchive>",
        MISSING_CHILD,
        75,
    ),
    // A resource without its type.
    (
        b"<HighSchoolTimetableArchive><Instances><Instance Id=\"I\"><Resources><Resource Id=\"r\"><Name>n</Name></Resource></Resources></Instance></Instances></HighSchoolTimetableArchive>",
        MISSING_CHILD,
        67,
    ),
    // A resource group without its type.
    (
        b"<HighSchoolTimetableArchive><Instances><Instance Id=\"I\"><Resources><ResourceGroups><ResourceGroup Id=\"r\"/></ResourceGroups></Resources></Instance></Instances></HighSchoolTimetableArchive>",
        MISSING_CHILD,
        83,
    ),
    // A type without a reference.
    (
        b"<HighSchoolTimetableArchive><Instances><Instance Id=\"I\"><Resources><Resource Id=\"r\"><ResourceType/></Resource></Resources></Instance></Instances></HighSchoolTimetableArchive>",
        MISSING_CHILD,
        84,
    ),
    // An event without a duration.
    (
        b"<HighSchoolTimetableArchive><Instances><Instance Id=\"I\"><Events><Event Id=\"e\"></Event></Events></Instance></Instances></HighSchoolTimetableArchive>",
        MISSING_CHILD,
        64,
    ),
    // A missing child after the faults of its siblings.
    (
        b"<HighSchoolTimetableArchive><Instances><Instance Id=\"I\"><Events><Event Id=\"e\"><Workload>x</Workload></Event></Events></Instance></Instances></HighSchoolTimetableArchive>",
        BAD_NUMBER,
        88,
    ),
    // A duration of nothing.
    (
        b"<HighSchoolTimetableArchive><Instances><Instance Id=\"I\"><Events><Event Id=\"e\"><Duration/></Event></Events></Instance></Instances></HighSchoolTimetableArchive>",
        BAD_NUMBER,
        89,
    ),
    // A duration of zero.
    (
        b"<HighSchoolTimetableArchive><Instances><Instance Id=\"I\"><Events><Event Id=\"e\"><Duration>0</Duration></Event></Events></Instance></Instances></HighSchoolTimetableArchive>",
        BAD_NUMBER,
        88,
    ),
    // A duration above its range.
    (
        b"<HighSchoolTimetableArchive><Instances><Instance Id=\"I\"><Events><Event Id=\"e\"><Duration> 1000001</Duration></Event></Events></Instance></Instances></HighSchoolTimetableArchive>",
        BAD_NUMBER,
        88,
    ),
    // A duration of eleven digits.
    (
        b"<HighSchoolTimetableArchive><Instances><Instance Id=\"I\"><Events><Event Id=\"e\"><Duration>00000000001</Duration></Event></Events></Instance></Instances></HighSchoolTimetableArchive>",
        BAD_NUMBER,
        88,
    ),
    // A number with a sign.
    (
        b"<HighSchoolTimetableArchive><Instances><Instance Id=\"I\"><Events><Event Id=\"e\"><Duration>1</Duration><Workload>-1</Workload></Event></Events></Instance></Instances></HighSchoolTimetableArchive>",
        BAD_NUMBER,
        110,
    ),
    // A number with white inside.
    (
        b"<HighSchoolTimetableArchive><Instances><Instance Id=\"I\"><Events><Event Id=\"e\"><Duration>1</Duration><Workload>1 1</Workload></Event></Events></Instance></Instances></HighSchoolTimetableArchive>",
        BAD_NUMBER,
        110,
    ),
    // A bad number before a missing attribute of the next.
    (
        b"<HighSchoolTimetableArchive><Instances><Instance Id=\"I\"><Events><Event Id=\"e\"><Duration>x</Duration></Event><Event/></Events></Instance></Instances></HighSchoolTimetableArchive>",
        BAD_NUMBER,
        88,
    ),
    // An event resource without a role.
    (
        b"<HighSchoolTimetableArchive><Instances><Instance Id=\"I\"><Events><Event Id=\"e\"><Duration>1</Duration><Resources><Resource><ResourceType Reference=\"t\"/></Resource></Resources></Event></Events></Instance></Instances></HighSchoolTimetableArchive>",
        MISSING_CHILD,
        111,
    ),
    // An event resource without a type.
    (
        b"<HighSchoolTimetableArchive><Instances><Instance Id=\"I\"><Events><Event Id=\"e\"><Duration>1</Duration><Resources><Resource><Role>a</Role></Resource></Resources></Event></Events></Instance></Instances></HighSchoolTimetableArchive>",
        MISSING_CHILD,
        111,
    ),
    // An event resource with a reference may lack both; its workload is bad.
    (
        b"<HighSchoolTimetableArchive><Instances><Instance Id=\"I\"><Events><Event Id=\"e\"><Duration>1</Duration><Resources><Resource Reference=\"r\"><Workload>1.5</Workload></Resource></Resources></Event></Events></Instance></Instances></HighSchoolTimetableArchive>",
        BAD_NUMBER,
        145,
    ),
    // An empty role.
    (
        b"<HighSchoolTimetableArchive><Instances><Instance Id=\"I\"><Events><Event Id=\"e\"><Duration>1</Duration><Resources><Resource><Role> </Role><ResourceType Reference=\"t\"/></Resource></Resources></Event></Events></Instance></Instances></HighSchoolTimetableArchive>",
        BAD_WORD,
        127,
    ),
    // An empty role of an event resource with a reference.
    (
        b"<HighSchoolTimetableArchive><Instances><Instance Id=\"I\"><Events><Event Id=\"e\"><Duration>1</Duration><Resources><Resource Reference=\"r\"><Role/></Resource></Resources></Event></Events></Instance></Instances></HighSchoolTimetableArchive>",
        BAD_WORD,
        142,
    ),
    // An unknown constraint.
    (
        b"<HighSchoolTimetableArchive><Instances><Instance Id=\"I\"><Constraints><LimitConstraint Id=\"c\"/></Constraints></Instance></Instances></HighSchoolTimetableArchive>",
        UNKNOWN_ELEMENT,
        69,
    ),
    // A constraint without an Id.
    (
        b"<HighSchoolTimetableArchive><Instances><Instance Id=\"I\"><Constraints><AssignTimeConstraint><Required>true</Required><Weight>1</Weight><CostFunction>Linear</CostFunction><AppliesTo/></AssignTimeConstraint></Constraints></Instance></Instances></HighSchoolTimetableArchive>",
        MISSING_CHILD,
        69,
    ),
    // A constraint without a weight.
    (
        b"<HighSchoolTimetableArchive><Instances><Instance Id=\"I\"><Constraints><AssignTimeConstraint Id=\"C\"><Required>true</Required><CostFunction>Linear</CostFunction><AppliesTo/></AssignTimeConstraint></Constraints></Instance></Instances></HighSchoolTimetableArchive>",
        MISSING_CHILD,
        69,
    ),
    // A word that is not true or false.
    (
        b"<HighSchoolTimetableArchive><Instances><Instance Id=\"I\"><Constraints><AssignTimeConstraint Id=\"C\"><Required>True</Required><Weight>1</Weight><CostFunction>Linear</CostFunction><AppliesTo/></AssignTimeConstraint></Constraints></Instance></Instances></HighSchoolTimetableArchive>",
        BAD_WORD,
        108,
    ),
    // An unknown cost function.
    (
        b"<HighSchoolTimetableArchive><Instances><Instance Id=\"I\"><Constraints><AssignTimeConstraint Id=\"C\"><Required>false</Required><Weight>1</Weight><CostFunction> Sum </CostFunction><AppliesTo/></AssignTimeConstraint></Constraints></Instance></Instances></HighSchoolTimetableArchive>",
        BAD_WORD,
        156,
    ),
    // A constraint without AppliesTo.
    (
        b"<HighSchoolTimetableArchive><Instances><Instance Id=\"I\"><Constraints><AssignTimeConstraint Id=\"C\"><Required>true</Required><Weight>1</Weight><CostFunction>Linear</CostFunction></AssignTimeConstraint></Constraints></Instance></Instances></HighSchoolTimetableArchive>",
        MISSING_CHILD,
        69,
    ),
    // AppliesTo of another form.
    (
        b"<HighSchoolTimetableArchive><Instances><Instance Id=\"I\"><Constraints><AssignTimeConstraint Id=\"C\"><Required>true</Required><Weight>1</Weight><CostFunction>Linear</CostFunction><AppliesTo><Resources/></AppliesTo></AssignTimeConstraint></Constraints></Instance></Instances></HighSchoolTimetableArchive>",
        UNKNOWN_ELEMENT,
        187,
    ),
    // A constraint without its role.
    (
        b"<HighSchoolTimetableArchive><Instances><Instance Id=\"I\"><Constraints><AssignResourceConstraint Id=\"C\"><Required>true</Required><Weight>1</Weight><CostFunction>Linear</CostFunction><AppliesTo/></AssignResourceConstraint></Constraints></Instance></Instances></HighSchoolTimetableArchive>",
        MISSING_CHILD,
        69,
    ),
    // A child of another kind.
    (
        b"<HighSchoolTimetableArchive><Instances><Instance Id=\"I\"><Constraints><AssignTimeConstraint Id=\"C\"><Required>true</Required><Weight>1</Weight><CostFunction>Linear</CostFunction><AppliesTo/><Role>a</Role></AssignTimeConstraint></Constraints></Instance></Instances></HighSchoolTimetableArchive>",
        UNKNOWN_ELEMENT,
        188,
    ),
    // A weight above its range.
    (
        b"<HighSchoolTimetableArchive><Instances><Instance Id=\"I\"><Constraints><AssignTimeConstraint Id=\"C\"><Required>true</Required><Weight>1000001</Weight><CostFunction>Linear</CostFunction><AppliesTo/></AssignTimeConstraint></Constraints></Instance></Instances></HighSchoolTimetableArchive>",
        BAD_NUMBER,
        131,
    ),
    // An upper bound above its range.
    (
        b"<HighSchoolTimetableArchive><Instances><Instance Id=\"I\"><Constraints><LimitWorkloadConstraint Id=\"C\"><Required>true</Required><Weight>1</Weight><CostFunction>Linear</CostFunction><AppliesTo/><Maximum>2147483648</Maximum></LimitWorkloadConstraint></Constraints></Instance></Instances></HighSchoolTimetableArchive>",
        BAD_NUMBER,
        200,
    ),
    // A lower bound above its range.
    (
        b"<HighSchoolTimetableArchive><Instances><Instance Id=\"I\"><Constraints><LimitWorkloadConstraint Id=\"C\"><Required>true</Required><Weight>1</Weight><CostFunction>Linear</CostFunction><AppliesTo/><Maximum>2147483647</Maximum><Minimum>1000001</Minimum></LimitWorkloadConstraint></Constraints></Instance></Instances></HighSchoolTimetableArchive>",
        BAD_NUMBER,
        229,
    ),
    // A pair without its second event.
    (
        b"<HighSchoolTimetableArchive><Instances><Instance Id=\"I\"><Constraints><OrderEventsConstraint Id=\"C\"><Required>true</Required><Weight>1</Weight><CostFunction>Linear</CostFunction><AppliesTo><EventPairs><EventPair><FirstEvent Reference=\"a\"/></EventPair></EventPairs></AppliesTo></OrderEventsConstraint></Constraints></Instance></Instances></HighSchoolTimetableArchive>",
        MISSING_CHILD,
        200,
    ),
    // A spread without a reference.
    (
        b"<HighSchoolTimetableArchive><Instances><Instance Id=\"I\"><Constraints><SpreadEventsConstraint Id=\"C\"><Required>true</Required><Weight>1</Weight><CostFunction>Linear</CostFunction><AppliesTo/><TimeGroups><TimeGroup><Minimum>1</Minimum></TimeGroup></TimeGroups></SpreadEventsConstraint></Constraints></Instance></Instances></HighSchoolTimetableArchive>",
        MISSING_CHILD,
        202,
    ),
    // A bad number after the faults of its children.
    (
        b"<HighSchoolTimetableArchive><Instances><Instance Id=\"I\"><Constraints><AssignTimeConstraint Id=\"C\"><Required>x</Required><Weight>x</Weight></AssignTimeConstraint></Constraints></Instance></Instances></HighSchoolTimetableArchive>",
        BAD_WORD,
        108,
    ),
    // A solution group without an Id.
    (
        b"<HighSchoolTimetableArchive><SolutionGroups><SolutionGroup/></SolutionGroups></HighSchoolTimetableArchive>",
        MISSING_CHILD,
        44,
    ),
    // A solution without a reference.
    (
        b"<HighSchoolTimetableArchive><Instances/><SolutionGroups><SolutionGroup Id=\"g\"><Solution Id=\"I\"></Solution></SolutionGroup></SolutionGroups></HighSchoolTimetableArchive>",
        UNKNOWN_ELEMENT,
        88,
    ),
    // A second report.
    (
        b"<HighSchoolTimetableArchive><Instances/><SolutionGroups><SolutionGroup Id=\"g\"><Solution Reference=\"I\"><Report><Infeasibility>0</Infeasibility></Report><Report/></Solution></SolutionGroup></SolutionGroups></HighSchoolTimetableArchive>",
        REPEATED_CHILD,
        151,
    ),
    // Nothing in a report is looked at; a later event is.
    (
        b"<HighSchoolTimetableArchive><Instances/><SolutionGroups><SolutionGroup Id=\"g\"><Solution Reference=\"I\"><Report Id=\"x\">text<Name/><Name/></Report><Events><Event/></Events></Solution></SolutionGroup></SolutionGroups></HighSchoolTimetableArchive>",
        MISSING_CHILD,
        152,
    ),
    // A duration of an entry.
    (
        b"<HighSchoolTimetableArchive><Instances/><SolutionGroups><SolutionGroup Id=\"g\"><Solution Reference=\"I\"><Events><Event Reference=\"e\"><Duration>0</Duration></Event></Events></Solution></SolutionGroup></SolutionGroups></HighSchoolTimetableArchive>",
        BAD_NUMBER,
        141,
    ),
    // A role of a given resource.
    (
        b"<HighSchoolTimetableArchive><Instances/><SolutionGroups><SolutionGroup Id=\"g\"><Solution Reference=\"I\"><Events><Event Reference=\"e\"><Resources><Resource Reference=\"r\"><Role>\t</Role></Resource></Resources></Event></Events></Solution></SolutionGroup></SolutionGroups></HighSchoolTimetableArchive>",
        BAD_WORD,
        172,
    ),
    // A second time of an entry.
    (
        b"<HighSchoolTimetableArchive><Instances/><SolutionGroups><SolutionGroup Id=\"g\"><Solution Reference=\"I\"><Events><Event Reference=\"e\"><Time Reference=\"a\"/><Time Reference=\"b\"/></Event></Events></Solution></SolutionGroup></SolutionGroups></HighSchoolTimetableArchive>",
        REPEATED_CHILD,
        152,
    ),
    // A running time is a text; loose text in a solution is a fault.
    (
        b"<HighSchoolTimetableArchive><Instances/><SolutionGroups><SolutionGroup Id=\"g\"><Solution Reference=\"I\"><RunningTime>1 hour</RunningTime> a</Solution></SolutionGroup></SolutionGroups></HighSchoolTimetableArchive>",
        BAD_WORD,
        136,
    ),
];

/// The fault of a text of the grammar.
fn fault_of(alloc: Global, text: &[u8]) -> Option<ShapeFault> {
    let text = if text.len() < 4096 { text } else { b"" };
    match elements(alloc, text) {
        Ok(tree) => archive(alloc, &tree).err(),
        Err(_) => None,
    }
}

/// Whether each of these texts has this first fault.
fn are_refused(alloc: Global, rows: &[(&[u8], u32, u64)]) -> bool {
    for (text, kind, at) in rows {
        let fault = ShapeFault::Bad {
            kind: *kind,
            at: *at,
        };
        if fault_of(alloc, text) != Some(fault) {
            return false;
        }
    }
    true
}

#[test]
fn archives_are_refused(rt: HostRuntime) {
    assert!(rt; are_refused(rt.alloc(), REFUSED));
}
