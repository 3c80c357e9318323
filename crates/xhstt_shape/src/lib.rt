//! The shape of an XHSTT archive: from the tree of a text to an archive by the format's table of
//! elements, or to the first place where the tree leaves that table.
#![tactic(auto)]

mod building;
mod constraint_values;
mod constraints;
mod contents;
mod entries;
mod examples;
mod faults;
mod finding;
mod instance_values;
mod laws;
mod leaves;
mod packed;
mod packing;
mod packing_elements;
pub mod reading;
mod records;
mod schema;
mod solution_values;
mod walk;
mod words;

pub use constraints::{RawApplies, RawConstraint, RawPair, RawRule, RawSpread};
pub use entries::{Entries, EntryView, EntryViews, GivenView, GivenViews, NameView};
pub use faults::ShapeFault;
pub use records::{
    About, Archive, EventGroup, GroupSort, MetaData, Name, RawEntry, RawEvent, RawEventResource,
    RawGiven, RawInstance, RawResource, RawSolution, Ref, ResourceGroup, ResourceType,
    SolutionGroup, Time, TimeGroup, TimeSort,
};
pub use schema::{AllowedAttribute, Child, Content, Mark, Row};
pub use words::{Label, Tag};
