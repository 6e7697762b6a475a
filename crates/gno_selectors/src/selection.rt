// What a selector names.
use gno_base::List;
use gno_terms::{Field, Method, TypeRef};

/// An embedded field that a selector passes.
#[derive(Clone, Copy, Debug, PartialEq, Eq)]
pub struct Passed {
    /// Its place among the fields of its struct.
    pub place: usize,
    /// Whether it is a pointer.
    pub pointer: bool,
}

/// What a name selects in a type. A way holds the embedded fields that are passed, outermost first.
#[derive(Debug, Drop)]
pub enum Selection {
    /// No field and no method has this name.
    Missing,
    /// Two of this name stand at the least depth.
    Ambiguous,
    /// A field of the type that the way leads to, by its place among the fields there.
    Field {
        way: List<Passed>,
        of: TypeRef,
        place: usize,
        field: Field,
    },
    /// A method that is declared on the type that the way leads to, or is one of the interface that it is.
    Method {
        way: List<Passed>,
        of: TypeRef,
        method: Method,
    },
}
