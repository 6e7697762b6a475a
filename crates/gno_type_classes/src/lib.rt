//! What the typing rules ask of types, by their numbers in a table of types.
#![tactic(auto)]

mod classes;
mod constants;
mod conversions;
mod elements;
mod forms;
mod holders;
mod kinds;
mod parts;
mod pointers;
mod relations;
mod structure;
mod under;

pub use classes::{
    default_kind, has_nil, is_basic, is_boolean, is_integer, is_interface, is_ordered, is_text,
    is_untyped,
};
pub use constants::{fits, is_representable, may_be};
pub use conversions::converts;
pub use elements::{Elements, elements_of};
pub use holders::{Holder, follows, holder_of};
pub use parts::Signature;
pub use relations::{compares, has, is_boxed, takes};
pub use structure::{function, keys};
pub use under::{is_known, underlying};

#[cfg(test)]
mod tests;
