// Copies of what names hold.
ghost use Rattle.std.specs.Prelude.{◌≡◌, IfOk};

use gno_base::Bytes;
use gno_constants::Constant;
use gno_typed::{CodeId, VariableId};
use std::alloc::AllocError;

pub(crate) fn text_again(text: &Bytes) -> Result<Bytes, AllocError>
    ensures { IfOk result (λ it. it ≡ text.now) }
{
    text.clone()
}

pub(crate) fn code_again(code: &CodeId) -> Result<CodeId, AllocError>
    ensures { IfOk result (λ it. it ≡ code.now) }
{
    code.clone()
}

pub(crate) fn variable_again(id: &VariableId) -> Result<VariableId, AllocError>
    ensures { IfOk result (λ it. it ≡ id.now) }
{
    id.clone()
}

pub(crate) fn constant_again(value: &Constant) -> Result<Constant, AllocError>
    ensures { IfOk result (λ it. it ≡ value.now) }
{
    value.clone()
}
