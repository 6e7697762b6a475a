// The elements of composite literals.
use crate::TypedExprOf;
use gno_base::{List, Shared};

/// The elements of a composite literal, in source order. What none of them gives is zero.
#[cycle(typed)]
#[derive(Drop)]
pub enum ElementsOf<T> {
    Struct(List<FieldValueOf<T>>),
    /// With the array's length.
    Array(u64, List<IndexedOf<T>>),
    /// With the slice's length.
    Slice(u64, List<IndexedOf<T>>),
    Map(List<PairOf<T>>),
}

/// The value of a field, by its place in the struct.
#[cycle(typed)]
#[derive(Drop)]
pub struct FieldValueOf<T> {
    pub index: u64,
    pub value: Shared<TypedExprOf<T>>,
}

/// The value at an index, and the constant that gives the index where one is written.
#[cycle(typed)]
#[derive(Drop)]
pub struct IndexedOf<T> {
    pub key: Option<Shared<TypedExprOf<T>>>,
    pub index: u64,
    pub value: Shared<TypedExprOf<T>>,
}

/// A key and its value.
#[cycle(typed)]
#[derive(Drop)]
pub struct PairOf<T> {
    pub key: Shared<TypedExprOf<T>>,
    pub value: Shared<TypedExprOf<T>>,
}
