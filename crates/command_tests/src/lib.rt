//! Tests of commands on the whole program, as one call on shelves and sinks in memory. Of those that construct a
//! timetable, that run a script with ties and that match the tasks of one time: what they should write was worked out
//! by hand, or made by a reference program that was written apart from this one. Of every command on devices of which
//! each call fails in turn, a run for each command; and of the workers of commands on an archive that is made.
#![tactic(auto)]

#[cfg(test)]
mod archives;
#[cfg(test)]
mod constructions;
#[cfg(test)]
mod ends;
#[cfg(test)]
mod made;
#[cfg(test)]
mod matchings;
#[cfg(test)]
mod records;
#[cfg(test)]
mod runs;
#[cfg(test)]
mod sweeps;
#[cfg(test)]
mod texts;
#[cfg(test)]
mod ties;
#[cfg(test)]
mod words;
