// The types that are declared, and what is true of them.
use gno_base::Kind;
use gno_typed::{ConversionKind, IndexKind};

/// How a type is made of another.
#[derive(Clone, Copy)]
pub(super) enum Form {
    Pointer,
    Slice,
    /// Of three elements.
    Array,
    /// Whose keys and elements are of one type.
    Map,
    /// Of one variadic parameter, whose slice type is given.
    Function,
    Struct,
    Interface,
    Defined,
    /// A defined type with a method `Error() string`.
    Failing,
    /// A type that no declaration defines.
    Open,
}

/// The predeclared types.
pub(super) const BASIC: [(&str, Kind); 6] = [
    ("bool", Kind::Bool),
    ("string", Kind::Text),
    ("int", Kind::Int),
    ("int8", Kind::Int8),
    ("int32", Kind::Int32),
    ("uint8", Kind::Uint8),
];

/// Names of types, and what each is made of.
pub(super) const FORMED: [(&str, Form, &str); 28] = [
    ("any", Form::Interface, ""),
    ("struct{}", Form::Struct, ""),
    ("Celsius", Form::Failing, "int32"),
    ("Text", Form::Defined, "string"),
    ("Flag", Form::Defined, "bool"),
    ("Anything", Form::Defined, "any"),
    ("[]uint8", Form::Slice, "uint8"),
    ("Row", Form::Defined, "[]uint8"),
    ("*Row", Form::Pointer, "Row"),
    ("Link", Form::Defined, "*Row"),
    ("[]Celsius", Form::Slice, "Celsius"),
    ("[]int", Form::Slice, "int"),
    ("[3]int", Form::Array, "int"),
    ("*[3]int", Form::Pointer, "[3]int"),
    ("map[string]string", Form::Map, "string"),
    ("Index", Form::Defined, "map[string]string"),
    ("func(...int)", Form::Function, "[]int"),
    ("Handler", Form::Defined, "func(...int)"),
    ("Empty", Form::Defined, "struct{}"),
    ("*Empty", Form::Pointer, "Empty"),
    ("**Empty", Form::Pointer, "*Empty"),
    ("Ref", Form::Defined, "*Empty"),
    ("*struct{}", Form::Pointer, "struct{}"),
    ("*error", Form::Pointer, "error"),
    ("*any", Form::Pointer, "any"),
    ("*Anything", Form::Pointer, "Anything"),
    ("Open", Form::Open, ""),
    ("*Open", Form::Pointer, "Open"),
];

/// Types, and the classes that each is of.
pub(super) const CLASSES: [(&str, &str); 21] = [
    ("int", "integer ordered basic"),
    ("uint8", "integer ordered basic"),
    ("Celsius", "integer ordered basic"),
    ("string", "text ordered basic"),
    ("Text", "text ordered basic"),
    ("Flag", "boolean basic"),
    ("Row", "nil"),
    ("Link", "nil"),
    ("Index", "nil"),
    ("Handler", "nil"),
    ("error", "interface nil"),
    ("Anything", "interface nil"),
    ("[3]int", ""),
    ("Empty", ""),
    ("untyped bool", "boolean untyped"),
    ("untyped int", "integer ordered untyped"),
    ("untyped rune", "integer ordered untyped"),
    ("untyped string", "text ordered untyped"),
    ("nil", "untyped"),
    ("Open", ""),
    ("nothing", ""),
];

/// The kinds of default types.
pub(super) const DEFAULTS: [(&str, Option<Kind>); 7] = [
    ("untyped bool", Some(Kind::Bool)),
    ("untyped int", Some(Kind::Int)),
    ("untyped rune", Some(Kind::Int32)),
    ("untyped string", Some(Kind::Text)),
    ("nil", None),
    ("int", None),
    ("nothing", None),
];

/// Types, and their underlying types.
pub(super) const UNDER: [(&str, Option<&str>); 6] = [
    ("int", Some("int")),
    ("Celsius", Some("int32")),
    ("Link", Some("*Row")),
    ("*Open", Some("*Open")),
    ("Open", None),
    ("nothing", None),
];

/// Constants and types: whether the constant is of the class of the type, is a value of it, and may have it as its type.
pub(super) const CONSTANTS: [(&str, &str, bool, bool, bool); 14] = [
    ("127", "int8", true, true, true),
    ("300", "int8", true, false, false),
    ("-128", "int8", true, true, true),
    ("-1", "uint8", true, false, false),
    ("8364", "Celsius", true, true, true),
    ("8364", "Text", false, false, false),
    ("text", "Text", true, true, true),
    ("text", "Row", false, false, false),
    ("true", "Flag", true, true, true),
    ("true", "int", false, false, false),
    ("300", "untyped int", false, false, true),
    ("8364", "any", false, false, false),
    ("1", "Open", false, false, false),
    ("1", "nothing", false, false, false),
];

/// Whether the first type takes values of the second.
pub(super) const TAKEN: [(&str, &str, bool); 13] = [
    ("int", "int", true),
    ("int32", "Celsius", false),
    ("Celsius", "int32", false),
    ("Row", "[]uint8", true),
    ("[]uint8", "Row", true),
    ("Ref", "*Empty", true),
    ("*Empty", "*struct{}", false),
    ("error", "Celsius", true),
    ("error", "int", false),
    ("any", "error", true),
    ("Row", "nil", true),
    ("int", "nil", false),
    ("any", "Open", false),
];

/// Whether a type has the methods of an interface type.
pub(super) const HAD: [(&str, &str, bool); 8] = [
    ("Celsius", "error", true),
    ("int32", "error", false),
    ("error", "error", true),
    ("error", "Anything", true),
    ("any", "error", false),
    ("Row", "any", true),
    ("Open", "any", false),
    ("Celsius", "nothing", false),
];

/// Whether a value of the first type is put into one of the second.
pub(super) const BOXED: [(&str, &str, bool); 6] = [
    ("int", "any", true),
    ("Celsius", "error", true),
    ("Link", "Anything", true),
    ("error", "any", false),
    ("Anything", "any", false),
    ("Celsius", "int32", false),
];

/// Whether values of a type compare.
pub(super) const COMPARED: [(&str, bool); 14] = [
    ("int", true),
    ("Text", true),
    ("Flag", true),
    ("Link", true),
    ("Empty", true),
    ("[3]int", true),
    ("any", true),
    ("error", true),
    ("Row", false),
    ("[]Celsius", false),
    ("Index", false),
    ("Handler", false),
    ("Open", false),
    ("nothing", false),
];

/// How values of the first type are converted to the second.
pub(super) const CONVERSIONS: [(&str, &str, Option<ConversionKind>); 20] = [
    ("int", "int", Some(ConversionKind::Same)),
    ("Celsius", "int32", Some(ConversionKind::Same)),
    ("[]uint8", "Row", Some(ConversionKind::Same)),
    ("*struct{}", "*Empty", Some(ConversionKind::Same)),
    ("error", "any", Some(ConversionKind::Same)),
    ("Celsius", "int8", Some(ConversionKind::Integer)),
    ("int", "Celsius", Some(ConversionKind::Integer)),
    ("Celsius", "Text", Some(ConversionKind::Character)),
    ("Text", "Row", Some(ConversionKind::Bytes)),
    ("string", "[]Celsius", Some(ConversionKind::Characters)),
    ("Row", "Text", Some(ConversionKind::FromBytes)),
    ("[]Celsius", "string", Some(ConversionKind::FromCharacters)),
    ("Celsius", "error", Some(ConversionKind::Interface)),
    ("Row", "Anything", Some(ConversionKind::Interface)),
    ("int", "bool", None),
    ("Text", "int", None),
    ("[]int", "string", None),
    ("int", "error", None),
    ("any", "error", None),
    ("Open", "Open", None),
];

/// Types: how their elements are reached, of which type these are, and how many there are.
pub(super) const ELEMENTS: [(&str, Option<(IndexKind, &str, Option<u64>)>); 10] = [
    ("Text", Some((IndexKind::String, "uint8", None))),
    ("Row", Some((IndexKind::Slice, "uint8", None))),
    ("[]Celsius", Some((IndexKind::Slice, "Celsius", None))),
    ("[3]int", Some((IndexKind::Array, "int", Some(3)))),
    ("*[3]int", Some((IndexKind::Pointer, "int", Some(3)))),
    ("*Row", None),
    ("Index", None),
    ("int", None),
    ("*Open", None),
    ("Open", None),
];

/// Types: whose fields and methods count, whether a pointer leads there, and whether fields alone count.
pub(super) const HOLDERS: [(&str, Option<(&str, bool, bool)>); 11] = [
    ("Empty", Some(("Empty", false, false))),
    ("*Empty", Some(("Empty", true, false))),
    ("Ref", Some(("Empty", true, true))),
    ("*Row", Some(("Row", true, false))),
    ("error", Some(("error", false, false))),
    ("**Empty", None),
    ("*error", None),
    ("*any", None),
    ("*Anything", None),
    ("*Open", None),
    ("nothing", None),
];

/// Types, and what pointers of them point at.
pub(super) const POINTED: [(&str, Option<&str>); 7] = [
    ("*Empty", Some("Empty")),
    ("**Empty", Some("*Empty")),
    ("Ref", Some("Empty")),
    ("*error", Some("error")),
    ("Empty", None),
    ("Row", None),
    ("Open", None),
];
