//! Tests of the layers that the engine stands on: of matchings, cheapest choices and graphs of monitors; rows whose
//! answers were worked out by hand, and tests of great size, which no clause bounds in time; and edits of a
//! timetable, where each step of a list is checked, made, undone and made again, and what was noted and
//! what stands is compared with what was worked out by hand. And tests of what several workers do at the same time, in
//! threads of their own: on the board that hands them jobs, and on the solutions of an archive.
#![tactic(auto)]

#[cfg(test)]
mod archives;
#[cfg(test)]
mod boards;
#[cfg(test)]
mod bulky;
#[cfg(test)]
mod choices;
#[cfg(test)]
mod drawing;
#[cfg(test)]
mod evaluating;
#[cfg(test)]
mod graphs;
#[cfg(test)]
mod hand_graphs;
#[cfg(test)]
mod journals;
#[cfg(test)]
mod looking;
#[cfg(test)]
mod many_solutions;
#[cfg(test)]
mod matchings;
#[cfg(test)]
mod moves;
#[cfg(test)]
mod numbers;
#[cfg(test)]
mod plays;
#[cfg(test)]
mod rows;
#[cfg(test)]
mod sights;
#[cfg(test)]
mod spans;
#[cfg(test)]
mod watched_solutions;
#[cfg(test)]
mod worked;
