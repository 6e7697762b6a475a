//! Typed trees: expressions, statements, functions and packages as they run, with every type, conversion and way of a selector
//! written out.
//!
//! What is merely long stands flat, as in the tree of the source: operators of one level, and the steps behind an operand. Parts are
//! shared, so that what runs can hold them.
#![tactic(auto)]

mod code;
mod elements;
mod expr;
mod operation;
mod package;
mod scope;
mod statement;
mod step;

pub use code::{CodeId, VariableId};
pub use elements::{ElementsOf, FieldValueOf, IndexedOf, PairOf};
pub use expr::{Addressed, ArgumentsOf, ConversionKind, TypedExpr, TypedExprOf};
pub use gno_selectors::Passed;
pub use operation::{LogicOperationOf, LogicOperator, OperationOf};
pub use package::{TypedConstant, TypedFunction, TypedInit, TypedName, TypedPackage};
pub use scope::{Known, Named, NamedOf, Scope, ScopeName};
pub use statement::{
    ArmOf, BlockOf, CaseLabelOf, CaseOf, ForOf, RangeKind, RangeOf, RangeTargetOf, SwitchOf,
    TargetOf, TypeCaseOf, TypeSwitchOf, TypedStmt, TypedStmtOf, ValuesOf,
};
pub use step::{
    Adjustment, BoundOf, CalleeOf, Crossing, IndexKind, ReceiverOf, SliceKind, TypedStepOf,
    VariadicOf,
};
