//! Tests of the whole program, as one call on shelves and sinks in memory; and at the greatest sizes that an
//! archive may have, each met and then passed by one more.
#![tactic(auto)]

#[cfg(test)]
mod archives;
#[cfg(test)]
mod causes;
#[cfg(test)]
mod checks;
#[cfg(test)]
mod counts;
#[cfg(test)]
mod ends;
#[cfg(test)]
mod kinds;
#[cfg(test)]
mod limits;
#[cfg(test)]
mod listed;
#[cfg(test)]
mod makes;
#[cfg(test)]
mod monitors;
#[cfg(test)]
mod resolving;
#[cfg(test)]
mod sizes;
#[cfg(test)]
mod solutions;
#[cfg(test)]
mod sums;
#[cfg(test)]
mod tests;
#[cfg(test)]
mod units;
