//! Method sets.
#![tactic(auto)]

mod received;
mod receiver;
mod sets;

pub use receiver::is_complete;
pub use sets::{implements, method_set};
