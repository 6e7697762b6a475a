// Where embedded fields lead.
use gno_base::List;
use gno_terms::TypeRef;

/// A type that embedded fields lead to.
#[derive(Clone, Copy, Debug, PartialEq, Eq)]
pub struct Reached {
    pub of: TypeRef,
    /// How many embedded fields lead to it at least.
    pub depth: usize,
    /// Whether one of them is a pointer.
    pub followed: bool,
    /// Whether as many lead to it in another way.
    pub twice: bool,
    /// The type where the last field of a shortest way stands: 0 is the type itself, and `k + 1` the reached type at place `k`,
    /// which stands before this one.
    pub from: usize,
    /// The place of that field among the fields there.
    pub place: usize,
    /// Whether that field is a pointer.
    pub pointer: bool,
}

/// The types that the embedded fields of a type lead to.
#[derive(Debug, Drop)]
pub enum Reach {
    /// All of them but for the type itself, the nearest first.
    All(List<Reached>),
    /// Some of them: the last one, or the type itself where there is none, is a defined type that no declaration defines yet.
    Blocked(List<TypeRef>),
}
