//! Numbers, budgets, lists and handles.
#![tactic(auto)]

mod boxed;
mod caller;
mod compared;
mod cycles;
mod kind;
mod list;
mod names;
mod path;
mod shared;
mod whole;

pub use boxed::Boxed;
pub use caller::{is_caller, is_digit, is_small_letter};
pub use cycles::{Cycles, Spent};
pub use kind::Kind;
pub use list::{Bytes, List};
pub use names::{LimitOf, NamedText};
pub use path::{Path, PathFault, PathKind, path_no_zero};
pub use shared::Shared;
pub use whole::Whole;

#[cfg(test)]
mod tests;
