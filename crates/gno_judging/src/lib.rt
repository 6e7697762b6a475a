//! What code has to say about a typing rule: a form that names types by their numbers, and the fault at the least place.
//!
//! `specs/Stands.antt` and `specs/Found.antt` say what such a form stands for, `specs/Answers.antt` when it answers a rule.
#![tactic(auto)]

mod faults;
mod laws;

pub use faults::Faults;
pub use laws::{a_fault_is_told_where_one_was_noted, the_told_fault_is_the_least};

#[cfg(test)]
mod tests;
