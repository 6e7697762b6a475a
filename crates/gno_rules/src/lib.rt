//! The grammar of source files, as data: what each production reads, and the tree that it makes.
#![tactic(auto)]

mod expression;
mod parameters;
mod rule;
mod statement;
mod types;

pub use expression::{Elements, Exprs, Found, Operand, Operands, Place, Shape, Suffix, prefixed};
pub use parameters::{Entry, ListState, ParameterList, nameless, qualified};
pub use rule::Rule;
pub use statement::{
    Cases, Header, Kind, Labeled, Read, SimpleRead, Statements, SwitchHeader, Tag, Tail,
};
pub use types::{Length, OperandType, SignatureRead, TypeEnd, TypeRead};
