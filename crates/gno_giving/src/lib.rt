//! What a value becomes in the place that it is given to, and forms that grow behind what was typed.
#![tactic(auto)]

mod basics;
mod constants;
mod forms;
mod in_type;
mod places;

pub use basics::Basics;
pub use constants::{constant_given, default_constant, held, settled_constant};
pub use forms::{closed, with_logic, with_operation, with_step};
pub use in_type::InType;
pub use places::typed_given;

#[cfg(test)]
mod tests;
