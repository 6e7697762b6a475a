// Small types that several layers name.
use crate::Bytes;

/// A text with its name, as a source file of a package.
#[derive(Debug, Drop)]
pub struct NamedText {
    pub name: Bytes,
    pub text: Bytes,
}

/// What may pass its limit.
#[derive(Clone, Copy, Debug, PartialEq, Eq)]
pub enum LimitOf {
    /// The time in an object's identity.
    Time,
    /// A count of references, or of packages.
    Count,
    /// The length of a script.
    Script,
}
