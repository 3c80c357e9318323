//! The names and references of an XHSTT archive: Ids are numbered in the order of the text, and each
//! reference names something, or the first one that does not is the archive's fault. References of
//! solutions are followed here once, and are numbers ever after.
#![tactic(auto)]

mod directories;
mod faults;
mod first;
mod following;
mod hashing;
mod ids;
mod instances;
mod looking_up;
mod names;
mod numbering;
mod part_names;
mod repeats;
mod solutions;

pub use directories::Directory;
pub use faults::ReferenceFault;
pub use following::{Followed, Named};
pub use hashing::Seed;
pub use instances::{directory, instance_names};
pub use names::Names;
pub use part_names::{InstanceNames, PartNames};
pub use solutions::{SolutionNumbers, instances_of_solutions};
