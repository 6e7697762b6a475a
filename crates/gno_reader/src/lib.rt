//! What the readers of the grammar are written with: the tokens that are left, and the constructs that nest.
#![tactic(auto)]

mod begins;
pub mod construct;
mod cursor;
mod kind;
pub mod list;
pub mod name;
pub mod phrase;
mod reader;
mod steps;
pub mod type_name;

pub use begins::{
    begins_expr, begins_other_type, begins_plain_expr, begins_type, plain_expr_kinds,
};
pub use cursor::{Cursor, Failure};
pub use reader::{Construct, ExprReader, ListReader, Reader, SimpleReader};
pub use steps::begins_suffix_of;
