//! A page to look at: what the solutions of an archive cost and the timetables that they give, as one HTML page that
//! stands alone. The call `page` reads the archive and hands the page to a sink, solution by solution.
#![tactic(auto)]

mod about;
mod busy;
mod costs;
mod defects;
mod draft;
mod escaping;
mod events;
mod grids;
mod kinds;
mod labels;
#[allow(dead_code)]
mod laws;
mod layout;
mod marking;
mod naming;
mod opening;
mod outcomes;
mod parts;
mod program;
mod refusing;
mod rows;
mod sections;
mod sending;
mod style;
mod summary;
mod view;
mod words;

pub use program::{Status, page};
