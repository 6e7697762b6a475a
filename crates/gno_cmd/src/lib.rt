//! The top call: a script, read and run on a table of a keeper.
#![tactic(auto)]

mod line;
mod performing;
mod session;
mod status;
mod top;
mod usage;

pub use gno_items::{End, ItemReply, item_text};
pub use gno_script::{Item, ScriptError, read_script};
pub use status::Status;
pub use top::gno;

#[cfg(test)]
mod tests;
