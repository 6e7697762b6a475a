// The members that embedded fields lead to.
use gno_terms::{MethodOf, TypeRef};

/// How embedded fields lead to a type.
#[derive(Clone, Copy, Debug)]
pub struct Way {
    /// How many of them lead to it at least.
    pub depth: usize,
    /// Whether one of them is a pointer.
    pub followed: bool,
    /// Whether as many lead to it in another way.
    pub twice: bool,
}

/// A field or a method of a type that embedded fields lead to, over what stands for a type.
#[derive(Debug, Drop)]
pub struct CandidateOf<T> {
    /// The method. A field stands here as if it were one.
    pub member: MethodOf<T>,
    pub is_method: bool,
    /// What leads to its type.
    pub way: Way,
}

/// A member, by the number of its type.
pub type Candidate = CandidateOf<TypeRef>;
