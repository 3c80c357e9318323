//! A check, when the program is compiled, that a type may be read by several threads.

/// Checks at compile time that several threads may read values of a type together: a call with a value of any
/// other type is rejected. It does nothing when the program runs.
pub fn lends_to_threads<T: Send + Sync>(_value: &T) {}
