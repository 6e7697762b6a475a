// The operators between two texts. Go specification, "String concatenation", "Comparison operators".
ghost use Rattle.std.specs.Prelude.{◌≡◌, ◌++◌, IfOk, IfErr};
ghost use Rattle.gno_constants.specs.Exact.{exact_texts};
ghost use Rattle.gno_constants.specs.Exact.Exact.{Value};
ghost use Rattle.gno_constants.specs.Kinds.{TakesTexts};

use crate::order::holds;
use crate::{Constant, FoldFault, FoldOp};
use gno_base::Bytes;
use std::alloc::{AllocError, Global};

/// The constant that the operator gives.
pub fn fold_texts(
    alloc: Global,
    op: FoldOp,
    left: &Bytes,
    right: &Bytes,
) -> Result<Constant, FoldFault>
    requires { TakesTexts op }
    ensures value { IfOk result (λ constant. exact_texts op left.now right.now ≡ Value constant) }
    ensures no_memory { IfErr result (λ fault. (fault ≡ FoldFault.NoMemory) × (op ≡ FoldOp.Add)) }
{
    match op {
        FoldOp::Add => match joined(alloc, left, right) {
            Ok(text) => Ok(Constant::Text(text)),
            Err(AllocError) => Err(FoldFault::NoMemory),
        },
        _ => Ok(Constant::Bool(holds(op, left.cmp(right)))),
    }
}

fn joined(alloc: Global, left: &Bytes, right: &Bytes) -> Result<Bytes, AllocError>
    ensures { IfOk result (λ text. text ≡ left.now ++ right.now) }
{
    let mut text = Bytes::from_slice(alloc, left.as_slice())?;
    text.extend_from_slice(right.as_slice())?;
    Ok(text)
}
