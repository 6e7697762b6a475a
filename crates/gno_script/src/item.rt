// The items of a script.
use gno_base::{Bytes, NamedText};

/// An item of a script. A budget is in cycles, below 2^63.
#[derive(Debug, Drop)]
pub enum Item {
    /// Adds the package of that path, whose source is one file.
    Add {
        budget: u64,
        caller: Bytes,
        path: Bytes,
        file: NamedText,
    },
    /// Calls a function of the realm of that path.
    Call {
        budget: u64,
        caller: Bytes,
        path: Bytes,
        function: Bytes,
    },
    /// Reads the store again.
    Reload,
}
