//! The typing rules: what is found about each form of the tree, its typed form or its faults.
//!
//! The rules stand in `specs/`. They speak of types as terms; what code finds names types by their numbers in a table.
#![tactic(auto)]

mod fault;
mod form;
mod laws;
mod operand;
mod pending;
mod value;

pub use fault::Fault;
pub use form::FormOf;
pub use laws::{
    each_call_has_a_form, each_given_value_has_a_form, each_name_has_a_form,
    each_operator_has_a_form, each_rule_has_one_verdict, each_step_has_a_form,
};
pub use operand::OperandOf;
pub use pending::{PendingOf, PendingOperationOf};
pub use value::{Standing, ValueOf, Waits};
