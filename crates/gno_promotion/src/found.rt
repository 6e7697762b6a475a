// What a search for methods finds.
use gno_base::List;
use gno_terms::{MethodOf, TypeRef};

/// A method that a type has of itself or by its embedded fields, over what stands for a type.
#[derive(Clone, Debug, Drop)]
pub struct PromotedOf<T> {
    pub method: MethodOf<T>,
    /// Whether one of the embedded fields is a pointer.
    pub followed: bool,
}

/// A method, by the number of its type.
pub type Promoted = PromotedOf<TypeRef>;

/// What a search for the methods of a type finds.
#[derive(Debug, Drop)]
pub enum Search {
    /// Embedded fields lead to these types. The last one, or the type itself where there is none, is a defined type that no
    /// declaration defines yet.
    Blocked(List<TypeRef>),
    /// Embedded fields lead to these types alone, and these are the methods, in byte order.
    Found {
        reached: List<TypeRef>,
        methods: List<Promoted>,
    },
}
