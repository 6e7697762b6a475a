//! The tree of a source file: a variant for each production of the grammar, with its parts in order.
//!
//! What is merely long stands flat: operators of one level, the steps behind an operand, the arms of an `else if`, labels, lists.
#![tactic(auto)]

mod declaration;
mod expr;
mod file;
mod operator;
mod statement;
mod type_expr;
mod word;

pub use declaration::{ConstSpec, Declaration, TypeSpec, VarSpec};
pub use expr::{Element, Expr, Operation, Part, Step};
pub use file::{FileTree, Function, Import, Receiver, TopLevel};
pub use operator::{AssignOperator, BinaryOperator, StepOperator, UnaryOperator};
pub use statement::{
    Arm, Block, Case, For, ForHeader, Guard, If, Labels, RangeLeft, Simple, Statement, Subject,
    Switch,
};
pub use type_expr::{ArrayLength, Field, Member, Parameter, Signature, TypeExpr, TypeName};
pub use word::{Literal, LiteralKind, Name};
