//! The engine for programs in C: each export calls a function of the library on what stands behind a handle, and
//! says what that function says.
#![tactic(auto)]

mod costs;
mod exports;
mod handles;
mod held;
mod statuses;

pub use costs::Costs;
pub use handles::SessionHandle;
pub use held::Held;
