//! The readers of declarations, functions and files.
#![tactic(auto)]

mod declarations;
mod files;
mod function_operand;
mod functions;
mod import;
mod specs_of;

pub use declarations::{begins_declaration, declaration};
pub use files::file;
pub use function_operand::{function, header_function};
