// What is seen of a value without its type.
ghost use Rattle.std.specs.Prelude.{◌≡◌, ◌||◌, IfOk, option_map};
ghost use Rattle.gno_judging.specs.Found.{ValueStands};
ghost use Rattle.gno_seen.specs.Seen.{constant_in};
ghost use Rattle.gno_terms.specs.Tables.{Table};
ghost use Rattle.gno_terms.specs.declared.term.GoType.{GoType};
ghost use Rattle.gno_typing.specs.Binary.{calls_in, pos_in};
ghost use Rattle.gno_typing.specs.declared.operand.OperandOf.TheVariants as o;
ghost use Rattle.gno_typing.specs.declared.value.ValueOf.{ValueOf};

use gno_constants::Constant;
use gno_scan::Pos;
use gno_terms::TypeRef;
use gno_typing::{OperandOf, ValueOf};
use std::alloc::AllocError;

/// What was found as a value, as an operand.
pub fn as_operand(x: Option<ValueOf<TypeRef>>) -> Option<OperandOf<TypeRef>>
    ensures { result ≡ option_map o.Value x }
{
    match x {
        Some(value) => Some(OperandOf::Value(value)),
        None => None,
    }
}

/// Whether a value holds, outside the bodies of function literals, a call that is neither a conversion nor constant.
pub fn calls_in(x: &ValueOf<TypeRef>) -> bool
    ensures { (table : Table) (y : ValueOf GoType) → ValueStands table x.now y → result ≡ calls_in y }
{
    match x {
        ValueOf::Constant { .. } => false,
        ValueOf::Nil { .. } => false,
        ValueOf::Typed { calls, .. } => *calls,
        ValueOf::Pending { calls, .. } => *calls,
    }
}

/// Whether there is a call before a value, or one in it.
pub fn calls_with(calls: bool, x: &ValueOf<TypeRef>) -> bool
    ensures { (table : Table) (y : ValueOf GoType) → ValueStands table x.now y → result ≡ (calls || calls_in y) }
{
    let more = calls_in(x);
    either(calls, more)
}

/// The place of a value's node.
pub fn pos_in(x: &ValueOf<TypeRef>) -> Pos
    ensures { (table : Table) (y : ValueOf GoType) → ValueStands table x.now y → result ≡ pos_in y }
{
    match x {
        ValueOf::Constant { pos, .. } => *pos,
        ValueOf::Nil { pos } => *pos,
        ValueOf::Typed { pos, .. } => *pos,
        ValueOf::Pending { pos, .. } => *pos,
    }
}

/// A copy of the constant that a value is. An `Err` comes where there is no memory.
pub fn constant_in(x: &ValueOf<TypeRef>) -> Result<Option<Constant>, AllocError>
    ensures { IfOk result (λ it. it ≡ constant_in x.now) }
{
    match x {
        ValueOf::Constant { value, .. } => {
            let again = constant_again(value)?;
            Ok(Some(again))
        }
        _ => Ok(None),
    }
}

fn constant_again(value: &Constant) -> Result<Constant, AllocError>
    ensures { IfOk result (λ it. it ≡ value.now) }
{
    value.clone()
}

/// Whether one of both holds.
pub fn either(a: bool, b: bool) -> bool
    ensures { result ≡ (a || b) }
{
    a || b
}
