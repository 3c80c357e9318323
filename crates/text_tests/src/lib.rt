//! Tests of the readers and of the writer over their public calls: whole texts from devices and to them, the
//! tree of a text, the archive of a tree, and its canonical spelling, which a program written apart from
//! this one gave, and which is written as itself. They stand apart, so that the readers' own crates are
//! proved no second time with their tests.
#![tactic(auto)]

#[cfg(test)]
mod canonical_spellings;
#[cfg(test)]
mod devices;
#[cfg(test)]
mod mutations;
#[cfg(test)]
mod shape_faults;
#[cfg(test)]
mod spellings;
#[cfg(test)]
mod text_faults;
#[cfg(test)]
mod trees;
