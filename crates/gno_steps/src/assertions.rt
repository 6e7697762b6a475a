// Type assertions. Go specification, "Type assertions".
ghost use Rattle.std.specs.Prelude.{◌↔◌, IfOk, IsTrue};
ghost use Rattle.gno_judging.specs.Answers.{Answers};
ghost use Rattle.gno_judging.specs.Found.{FormStands, OperandStands, TypeStands, ValueStands};
ghost use Rattle.gno_terms.specs.Tables.{Is};
ghost use Rattle.gno_terms.specs.declared.term.GoType.{GoType};
ghost use Rattle.gno_type_classes.specs.Unnumbered.{unnumbered};
ghost use Rattle.gno_typing.specs.Assertions.{MayHold, asserted, assertion};
ghost use Rattle.gno_typing.specs.declared.form.FormOf.{FormOf};
ghost use Rattle.gno_typing.specs.declared.operand.OperandOf.{OperandOf};
ghost use Rattle.gno_typing.specs.declared.value.ValueOf.{ValueOf};
ghost use Rattle.gno_typing.specs.declared.value.ValueOf.TheVariants as v;
ghost use Rattle.gno_scan.specs.declared.token.Pos.{Pos};
ghost use Rattle.gno_typing.specs.declared.value.Standing.{Standing};

use gno_giving::with_step;
use gno_judging::Faults;
use gno_scan::Pos;
use gno_seen::as_operand;
use gno_terms::TypeRef;
use gno_type_classes::{has, is_interface};
use gno_type_table::TypeTable;
use gno_typed::TypedStepOf;
use gno_typing::{FormOf, OperandOf, Standing, ValueOf};
use gno_values::as_value;
use std::alloc::{AllocError, Global};

/// `x.(of)`, whose `.` is at `place`; `None` where it is not allowed, which is noted: 59 where `x` is not of an interface type, or
/// where `of` is none and lacks a method of it. Go specification, "Type assertions". An `Err` comes where there is no memory.
pub fn assertion(
    alloc: Global,
    types: &TypeTable,
    faults: &mut Faults,
    place: Pos,
    x: OperandOf<TypeRef>,
    of: TypeRef,
) -> Result<Option<OperandOf<TypeRef>>, AllocError>
    ensures { (y : OperandOf GoType) (u : GoType) → OperandStands types.now x y → TypeStands types.now of u → IfOk result (λ r. Answers (assertion (unnumbered types.now) place y u) (OperandStands types.now) faults.old faults.new r) }
{
    match as_value(alloc, faults, x)? {
        Some(value) => {
            let found = asserted(alloc, types, faults, place, of, value)?;
            Ok(as_operand(found))
        }
        None => Ok(None),
    }
}

// Of a value.
fn asserted(
    alloc: Global,
    types: &TypeTable,
    faults: &mut Faults,
    place: Pos,
    of: TypeRef,
    x: ValueOf<TypeRef>,
) -> Result<Option<ValueOf<TypeRef>>, AllocError>
    ensures { (u : GoType) (y : ValueOf GoType) → TypeStands types.now of u → ValueStands types.now x y → IfOk result (λ r. Answers (asserted (unnumbered types.now) place u y) (ValueStands types.now) faults.old faults.new r) }
{
    match x {
        ValueOf::Typed {
            pos: _pos,
            of: from,
            standing: _standing,
            calls,
            form,
        } => asserted_typed(alloc, types, faults, place, of, from, calls, form),
        other => {
            drop(other);
            faults.note(59, place);
            Ok(None)
        }
    }
}

// Of a value of a type.
fn asserted_typed(
    alloc: Global,
    types: &TypeTable,
    faults: &mut Faults,
    place: Pos,
    of: TypeRef,
    from: TypeRef,
    calls: bool,
    form: FormOf<TypeRef>,
) -> Result<Option<ValueOf<TypeRef>>, AllocError>
    ensures { (u s : GoType) (y : FormOf GoType) (at : Pos) (stands : Standing) → TypeStands types.now of u → Is types.now from s → FormStands types.now form y → IfOk result (λ r. Answers (asserted (unnumbered types.now) place u (v.Typed at s stands calls y)) (ValueStands types.now) faults.old faults.new r) }
{
    if !is_interface(types, from) {
        drop(form);
        faults.note(59, place);
        return Ok(None);
    }
    if may_hold(types, from, of) {
        let step = TypedStepOf::Assertion { pos: place, of };
        let form = with_step(alloc, form, step)?;
        Ok(Some(ValueOf::Typed {
            pos: place,
            of,
            standing: Standing::Result,
            calls,
            form,
        }))
    } else {
        drop(form);
        faults.note(59, place);
        Ok(None)
    }
}

// Whether a value of an interface type may be one of a type, which has its methods if it is no interface type.
fn may_hold(types: &TypeTable, from: TypeRef, of: TypeRef) -> bool
    ensures { (s u : GoType) → Is types.now from s → Is types.now of u → IsTrue result ↔ MayHold (unnumbered types.now) s u }
{
    if is_interface(types, of) {
        return true;
    }
    has(types, of, from)
}
