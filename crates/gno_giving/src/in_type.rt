// Forms that took a type.
use gno_terms::TypeRef;
use gno_typing::FormOf;

/// A form, and the type that it took.
#[derive(Drop)]
pub struct InType {
    pub of: TypeRef,
    pub form: FormOf<TypeRef>,
}
