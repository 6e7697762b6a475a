// Faults.

/// Why there is no file.
#[derive(Clone, Copy, Debug, PartialEq, Eq)]
pub enum FirstFault {
    /// The text is not in the first form.
    NotFirst,
    /// Memory is wanting.
    NoMemory,
}
