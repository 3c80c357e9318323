//! Tests of what changes a solution that stands. Of scripts on the whole program, as one call on shelves and sinks in
//! memory: what the answers should be was worked out by hand, or for the week by a reference program that was written
//! apart from this one. Of repair: what one comes to on small archives, and many by several workers, as an oracle of
//! the definitions says, and what the command writes.
#![tactic(auto)]

#[cfg(test)]
mod archives;
#[cfg(test)]
mod cases;
#[cfg(test)]
mod commands;
#[cfg(test)]
mod edits;
#[cfg(test)]
mod ends;
#[cfg(test)]
mod lines;
#[cfg(test)]
mod marks;
#[cfg(test)]
mod plays;
#[cfg(test)]
mod repairs;
#[cfg(test)]
mod shortages;
#[cfg(test)]
mod solves;
#[cfg(test)]
mod starts;
#[cfg(test)]
mod texts;
#[cfg(test)]
mod week;
#[cfg(test)]
mod worked;
