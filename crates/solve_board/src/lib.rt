//! The board that workers share while they go through a list of jobs: which number comes next, and
//! the least job that was offered. It stands on two words that change in single atomic steps, so
//! no call waits for another.
#![tactic(auto)]

mod boards;
mod rules;
mod states;
mod steps;
mod views;

pub use boards::{Board, Closed, Seat};
pub use states::{BoardState, BoardStep};
pub use steps::board_step;
pub use views::BoardView;
