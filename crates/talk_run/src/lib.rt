//! A talk: lines are read one after the other, and each is answered before the next is read. They are the lines
//! of scripts and two more, by which a timetable is repaired and the archive written.
#![tactic(auto)]

mod answering;
mod commands;
mod faults;
mod laws;
mod reading;
mod repairs;
mod speakers;
mod talking;

pub use commands::{Chains, TalkCommand, read_talk_line};
pub use faults::TalkFault;
pub use reading::Lines;
pub use speakers::{Speaker, answer_bare};
pub use talking::{Talker, talk};
