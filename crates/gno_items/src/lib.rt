//! Items: what an addition of a package or a call of a function does to the packages that are held, and its text.
#![tactic(auto)]

mod adding;
mod calling;
mod laws;
mod memory;
mod reply;
mod text;

pub use adding::{Added, add};
pub use calling::{Called, call};
pub use laws::one_session;
pub use memory::{Package, Packages};
pub use reply::{End, FilePlace, ItemReply, Refusal, ResultText};
pub use text::item_text;

/// There is no memory.
#[derive(Clone, Copy, Debug, PartialEq, Eq)]
pub struct NoMemory;

#[cfg(test)]
mod tests;
