//! What is told of a timetable while it changes: the state as a list of slots, the six changes of
//! it, the sixteen edits with their refusals, what becomes of a slot at an edit, and the traits of
//! listeners: a family that keeps the deviations of some kinds, the queue of monitors to be measured, and a watcher.
#![tactic(auto)]

mod changes;
mod edits;
mod effects;
mod families;
mod filling;
mod laws;
mod naming;
mod opening;
mod refusals;
mod rows;
mod slots;
mod steps;
mod told;
mod turns;
mod waiting;
mod watchers;

pub use changes::Change;
pub use edits::{Back, Edit};
pub use effects::{Effect, Effects, Regiven};
pub use families::Family;
pub use naming::Places;
pub use refusals::Refusal;
pub use slots::{Slot, Span};
pub use steps::{Blank, Steps};
pub use told::Told;
pub use turns::Turn;
pub use waiting::{Unheard, Waiting, Waits};
pub use watchers::Watcher;
