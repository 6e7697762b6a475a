//! The typing rules on the tree: which verdicts are right for an expression and for a type as they are written.
//!
//! The rules of single forms stand in `gno_typing`. Here are those of composite literals and of written types, and how all are put
//! together along a tree.
#![tactic(auto)]

mod laws;

pub use laws::{
    each_expression_has_a_form, each_expression_has_one_verdict,
    each_rule_of_literals_has_one_verdict, each_rule_of_types_has_one_verdict,
    each_written_type_has_a_form, each_written_type_has_one_verdict,
};
