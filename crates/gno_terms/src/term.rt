// A type and its parts.
use gno_base::{Boxed, Bytes, Kind, List};

/// The number of a type in its table.
#[derive(Clone, Copy, Debug, PartialEq, Eq, PartialOrd, Ord)]
pub struct TypeRef(pub u64);

/// A field of a struct, over what stands for a type.
#[derive(Clone, Debug, PartialEq, Eq, PartialOrd, Ord, Drop)]
pub struct FieldOf<T> {
    pub name: Bytes,
    /// The path of the package that names the field, where the name is not exported.
    pub package: Bytes,
    pub embedded: bool,
    pub of: T,
}

/// A method, over what stands for a type.
#[derive(Clone, Debug, PartialEq, Eq, PartialOrd, Ord, Drop)]
pub struct MethodOf<T> {
    pub name: Bytes,
    /// The path of the package that names the method, where the name is not exported.
    pub package: Bytes,
    /// Its function type, without a receiver.
    pub of: T,
    /// Whether it is declared on a pointer receiver.
    pub pointer: bool,
}

/// A type by its parts, over what stands for a part. Go specification, "Types".
#[derive(Clone, Debug, PartialEq, Eq, PartialOrd, Ord, Drop)]
pub enum TermOf<T> {
    Basic(Kind),
    UntypedBool,
    UntypedWhole,
    UntypedRune,
    UntypedText,
    UntypedNil,
    Error,
    Realm,
    /// The type that a declaration defines. `local` is 0 at package level, and else the declaration's number among those in
    /// functions of its package.
    Defined {
        path: Bytes,
        name: Bytes,
        local: u64,
    },
    Pointer(T),
    Slice(T),
    Array(u64, T),
    /// Of keys and of values.
    Map(T, T),
    /// The last parameter of a variadic function is a slice.
    Function {
        params: List<T>,
        variadic: bool,
        results: List<T>,
    },
    Struct(List<FieldOf<T>>),
    Interface(List<MethodOf<T>>),
}

/// A field, by the number of its type.
pub type Field = FieldOf<TypeRef>;

/// A method, by the number of its type.
pub type Method = MethodOf<TypeRef>;

/// A type, by the numbers of its parts.
pub type Term = TermOf<TypeRef>;

/// A type as a finite term: its parts are types again, and a defined type is its name. Contracts speak of it; code has numbers.
#[derive(Drop)]
pub struct GoType {
    pub term: Boxed<TermOf<GoType>>,
}

/// What a declaration says of the type that it defines, over what stands for a type.
#[derive(Clone, Debug, Drop)]
pub struct DefinitionOf<T> {
    pub of: T,
    pub underlying: T,
    pub methods: List<MethodOf<T>>,
}
