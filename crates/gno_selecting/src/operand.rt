// Operands of which a member is selected.
use gno_terms::TypeRef;
use gno_typing::{FormOf, Standing};

/// A value of a type, and how it stands.
#[derive(Drop)]
pub(crate) struct Operand {
    pub(crate) of: TypeRef,
    pub(crate) standing: Standing,
    pub(crate) calls: bool,
    pub(crate) form: FormOf<TypeRef>,
}
