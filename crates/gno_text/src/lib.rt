//! Texts for the reader's eye.
#![tactic(auto)]

mod quoting;
#[cfg(test)]
mod tests;

pub use quoting::{
    quotation_stands_on_one_line, quotations_differ, quoted, text_is_read_from_front,
};
