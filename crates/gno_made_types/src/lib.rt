//! Types that are made of others, and what rules ask of them.
#![tactic(auto)]

mod interfaces;
mod made;
mod parts;
mod sizes;
mod structs;

pub use interfaces::{embedded_methods, interface_method, interface_type};
pub use made::{array_type, function_type, map_type, pointer_to, slice_of};
pub use structs::{embedded_field, field, struct_type};

#[cfg(test)]
mod tests;
