//! Types as finite terms.
#![tactic(auto)]

mod laws;
mod names;
mod normal;
mod term;
#[cfg(test)]
mod tests;

pub use laws::one_type_a_text;
pub use names::is_exported;
pub use normal::{normal_packages, normal_term};
pub use term::{DefinitionOf, Field, FieldOf, GoType, Method, MethodOf, Term, TermOf, TypeRef};
