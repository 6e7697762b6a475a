// Conversions. Go specification, "Conversions".
ghost use Rattle.std.specs.Prelude.{IfOk};
ghost use Rattle.gno_giving.specs.Basics.{AreBasics};
ghost use Rattle.gno_giving.specs.InTypes.{InTypeStands};
ghost use Rattle.gno_judging.specs.Answers.{Answers};
ghost use Rattle.gno_judging.specs.Found.{ConstantTypeStands, FormStands, OperandStands, PendingStands, TypeStands, ValueStands};
ghost use Rattle.gno_judging.specs.Stands.{Stands};
ghost use Rattle.gno_constants.specs.declared.constant.Constant.TheVariants as c;
ghost use Rattle.gno_judging.specs.Waiting.{IsWaiting};
ghost use Rattle.gno_scan.specs.declared.token.Pos.{Pos};
ghost use Rattle.gno_steps.specs.Converting.{character_converted, given_converted};
ghost use Rattle.gno_terms.specs.Tables.{Is, Table};
ghost use Rattle.gno_terms.specs.declared.term.GoType.{GoType};
ghost use Rattle.gno_type_classes.specs.Unnumbered.{unnumbered};
ghost use Rattle.gno_typed.specs.declared.expr.TypedExprOf.TheVariants as w;
ghost use Rattle.gno_typed.specs.declared.expr.TypedExprOf.{TypedExprOf};
ghost use Rattle.gno_typing.specs.Conversions.{constant_to_basic, conversion, converted, converted_boolean, converted_constant, converted_integer, converted_typed};
ghost use Rattle.gno_typing.specs.Giving as giving;
ghost use Rattle.gno_typing.specs.Giving.{IsDefaulted};
ghost use Rattle.gno_typing.specs.Verdicts.{After};
ghost use Rattle.gno_typing.specs.declared.form.FormOf.TheVariants as f;
ghost use Rattle.gno_typing.specs.declared.form.FormOf.{FormOf};
ghost use Rattle.gno_typing.specs.declared.operand.OperandOf.{OperandOf};
ghost use Rattle.gno_typing.specs.declared.pending.PendingOf.{PendingOf};
ghost use Rattle.gno_typing.specs.declared.value.ValueOf.TheVariants as v;
ghost use Rattle.gno_typing.specs.declared.value.ValueOf.{ValueOf};

use crate::characters::text_of;
use gno_base::Shared;
use gno_constants::Constant;
use gno_giving::{Basics, InType, closed, settled_constant};
use gno_judging::Faults;
use gno_pending::{defaulted, given_type};
use gno_scan::Pos;
use gno_seen::as_operand;
use gno_terms::TypeRef;
use gno_type_classes::{
    converts, fits, has_nil, is_basic, is_boolean, is_integer, is_interface, is_representable,
    is_text,
};
use gno_type_table::TypeTable;
use gno_typed::{ConversionKind, TypedExpr, TypedExprOf};
use gno_typing::{FormOf, OperandOf, PendingOf, Standing, ValueOf, Waits};
use gno_values::as_value;
use std::alloc::{AllocError, Global};

/// `of(x)`, whose `(` is at `place`; `None` where it is not allowed, which is noted: 58 where `x` does not convert to the type, 43 where it
/// is a constant that is no value of it, 46 where it is a shift of an untyped constant and the type has no integers. Go specification,
/// "Conversions". An `Err` comes where there is no memory.
pub fn conversion(
    alloc: Global,
    types: &TypeTable,
    basics: Basics,
    faults: &mut Faults,
    place: Pos,
    of: TypeRef,
    x: OperandOf<TypeRef>,
) -> Result<Option<OperandOf<TypeRef>>, AllocError>
    ensures { (u : GoType) (y : OperandOf GoType) → AreBasics types.now basics → TypeStands types.now of u → OperandStands types.now x y → IfOk result (λ r. Answers (conversion (unnumbered types.now) place u y) (OperandStands types.now) faults.old faults.new r) }
{
    match as_value(alloc, faults, x)? {
        Some(value) => {
            let found = converted(alloc, types, basics, faults, place, of, value)?;
            Ok(as_operand(found))
        }
        None => Ok(None),
    }
}

// Of a value.
fn converted(
    alloc: Global,
    types: &TypeTable,
    basics: Basics,
    faults: &mut Faults,
    place: Pos,
    of: TypeRef,
    x: ValueOf<TypeRef>,
) -> Result<Option<ValueOf<TypeRef>>, AllocError>
    ensures { (u : GoType) (y : ValueOf GoType) → AreBasics types.now basics → TypeStands types.now of u → ValueStands types.now x y → IfOk result (λ r. Answers (converted (unnumbered types.now) place u y) (ValueStands types.now) faults.old faults.new r) }
{
    match x {
        ValueOf::Constant {
            pos,
            of: from,
            value,
        } => converted_constant(alloc, types, basics, faults, place, of, pos, from, value),
        ValueOf::Nil { pos } => converted_nil(alloc, types, faults, place, of, pos),
        ValueOf::Typed {
            pos: _pos,
            of: from,
            standing: _standing,
            calls,
            form,
        } => converted_typed(
            alloc,
            types,
            faults,
            place,
            of,
            calls,
            InType { of: from, form },
        ),
        ValueOf::Pending {
            pos: _pos,
            waits,
            calls,
            form,
        } => converted_pending(alloc, types, basics, faults, place, of, waits, calls, form),
    }
}

// Of a value of a type, or of one that took its default type.
fn converted_typed(
    alloc: Global,
    types: &TypeTable,
    faults: &mut Faults,
    place: Pos,
    of: TypeRef,
    calls: bool,
    x: InType,
) -> Result<Option<ValueOf<TypeRef>>, AllocError>
    ensures { (u : GoType) (y : giving.InType) → TypeStands types.now of u → InTypeStands types.now x y → IfOk result (λ r. Answers (converted_typed (unnumbered types.now) place u calls y) (ValueStands types.now) faults.old faults.new r) }
{
    match converts(types, x.of, of) {
        Some(kind) => {
            let InType { of: from, form } = x;
            let operand = closed(alloc, form)?;
            let form = converted_form(alloc, place, of, kind, from, operand)?;
            Ok(Some(ValueOf::Typed {
                pos: place,
                of,
                standing: Standing::Result,
                calls,
                form,
            }))
        }
        None => {
            drop(x);
            faults.note(58, place);
            Ok(None)
        }
    }
}

fn converted_form(
    alloc: Global,
    place: Pos,
    of: TypeRef,
    kind: ConversionKind,
    from: TypeRef,
    operand: TypedExpr,
) -> Result<FormOf<TypeRef>, AllocError>
    ensures { (table : Table) (u s : GoType) (y : TypedExprOf GoType) → Is table of u → Is table from s → Stands table operand y → IfOk result (λ r. FormStands table r (f.Whole (w.Conversion place u kind s y))) }
{
    let operand = Shared::new(alloc, operand)?;
    Ok(FormOf::Whole(TypedExprOf::Conversion {
        pos: place,
        of,
        kind,
        from,
        operand,
    }))
}

fn converted_nil(
    alloc: Global,
    types: &TypeTable,
    faults: &mut Faults,
    place: Pos,
    of: TypeRef,
    pos: Pos,
) -> Result<Option<ValueOf<TypeRef>>, AllocError>
    ensures { (u : GoType) → TypeStands types.now of u → IfOk result (λ r. Answers (converted (unnumbered types.now) place u (v.Nil pos)) (ValueStands types.now) faults.old faults.new r) }
{
    if has_nil(types, of) {
        let operand = TypedExprOf::Nil { pos, of };
        let form = converted_form(alloc, place, of, ConversionKind::Same, of, operand)?;
        Ok(Some(ValueOf::Typed {
            pos: place,
            of,
            standing: Standing::Result,
            calls: false,
            form,
        }))
    } else {
        faults.note(58, place);
        Ok(None)
    }
}

// ---- constants

fn converted_constant(
    alloc: Global,
    types: &TypeTable,
    basics: Basics,
    faults: &mut Faults,
    place: Pos,
    of: TypeRef,
    pos: Pos,
    from: TypeRef,
    value: Constant,
) -> Result<Option<ValueOf<TypeRef>>, AllocError>
    ensures { (u s : GoType) → AreBasics types.now basics → TypeStands types.now of u → ConstantTypeStands types.now from s → IfOk result (λ r. Answers (converted_constant (unnumbered types.now) place u pos s value) (ValueStands types.now) faults.old faults.new r) }
{
    if is_basic(types, of) {
        return constant_to_basic(alloc, types, faults, place, of, value);
    }
    match settled_constant(types, basics, faults, pos, from, value) {
        Some(x) => converted_typed(alloc, types, faults, place, of, false, x),
        None => Ok(None),
    }
}

// To a basic type: a constant of the type, or of a string type the character of a whole number.
fn constant_to_basic(
    alloc: Global,
    types: &TypeTable,
    faults: &mut Faults,
    place: Pos,
    of: TypeRef,
    value: Constant,
) -> Result<Option<ValueOf<TypeRef>>, AllocError>
    ensures { (u : GoType) → TypeStands types.now of u → IfOk result (λ r. Answers (constant_to_basic (unnumbered types.now) place u value) (ValueStands types.now) faults.old faults.new r) }
{
    if !fits(types, &value, of) {
        return constant_to_text(alloc, types, faults, place, of, value);
    }
    if is_representable(types, &value, of) {
        Ok(Some(ValueOf::Constant {
            pos: place,
            of,
            value,
        }))
    } else {
        drop(value);
        faults.note(43, place);
        Ok(None)
    }
}

fn constant_to_text(
    alloc: Global,
    types: &TypeTable,
    faults: &mut Faults,
    place: Pos,
    of: TypeRef,
    value: Constant,
) -> Result<Option<ValueOf<TypeRef>>, AllocError>
    ensures { (u : GoType) → TypeStands types.now of u → IfOk result (λ r. Answers (character_converted (unnumbered types.now) place u value) (ValueStands types.now) faults.old faults.new r) }
{
    match value {
        Constant::Whole(n) => character_to_text(alloc, types, faults, place, of, n),
        other => {
            drop(other);
            faults.note(58, place);
            Ok(None)
        }
    }
}

fn character_to_text(
    alloc: Global,
    types: &TypeTable,
    faults: &mut Faults,
    place: Pos,
    of: TypeRef,
    n: i128,
) -> Result<Option<ValueOf<TypeRef>>, AllocError>
    ensures { (u : GoType) → TypeStands types.now of u → IfOk result (λ r. Answers (character_converted (unnumbered types.now) place u (c.Whole n)) (ValueStands types.now) faults.old faults.new r) }
{
    if is_text(types, of) {
        let text = text_of(alloc, n)?;
        Ok(Some(ValueOf::Constant {
            pos: place,
            of,
            value: Constant::Text(text),
        }))
    } else {
        faults.note(58, place);
        Ok(None)
    }
}

// ---- values that wait

fn converted_pending(
    alloc: Global,
    types: &TypeTable,
    basics: Basics,
    faults: &mut Faults,
    place: Pos,
    of: TypeRef,
    waits: Waits,
    calls: bool,
    x: PendingOf<TypeRef>,
) -> Result<Option<ValueOf<TypeRef>>, AllocError>
    ensures { (u : GoType) (y : PendingOf GoType) (at : Pos) → AreBasics types.now basics → TypeStands types.now of u → PendingStands types.now x y → IsWaiting y → IfOk result (λ r. Answers (converted (unnumbered types.now) place u (v.Pending at waits calls y)) (ValueStands types.now) faults.old faults.new r) }
{
    match waits {
        Waits::Boolean => converted_boolean(alloc, types, basics, faults, place, of, calls, x),
        Waits::Integer(shift) => {
            converted_integer(alloc, types, basics, faults, place, of, calls, shift, x)
        }
    }
}

// A comparison takes a boolean type.
fn converted_boolean(
    alloc: Global,
    types: &TypeTable,
    basics: Basics,
    faults: &mut Faults,
    place: Pos,
    of: TypeRef,
    calls: bool,
    x: PendingOf<TypeRef>,
) -> Result<Option<ValueOf<TypeRef>>, AllocError>
    ensures { (u : GoType) (y : PendingOf GoType) → AreBasics types.now basics → TypeStands types.now of u → PendingStands types.now x y → IsWaiting y → IfOk result (λ r. Answers (converted_boolean (unnumbered types.now) place u calls y) (ValueStands types.now) faults.old faults.new r) }
{
    if is_boolean(types, of) {
        given_converted(alloc, types, faults, place, of, calls, x)
    } else {
        default_converted(alloc, types, basics, faults, place, of, calls, x)
    }
}

// A shift takes the type of the conversion if that is no interface type.
fn converted_integer(
    alloc: Global,
    types: &TypeTable,
    basics: Basics,
    faults: &mut Faults,
    place: Pos,
    of: TypeRef,
    calls: bool,
    shift: Pos,
    x: PendingOf<TypeRef>,
) -> Result<Option<ValueOf<TypeRef>>, AllocError>
    ensures { (u : GoType) (y : PendingOf GoType) → AreBasics types.now basics → TypeStands types.now of u → PendingStands types.now x y → IsWaiting y → IfOk result (λ r. Answers (converted_integer (unnumbered types.now) place u calls shift y) (ValueStands types.now) faults.old faults.new r) }
{
    if is_interface(types, of) {
        return default_converted(alloc, types, basics, faults, place, of, calls, x);
    }
    if is_integer(types, of) {
        given_converted(alloc, types, faults, place, of, calls, x)
    } else {
        drop(x);
        faults.note(46, shift);
        Ok(None)
    }
}

// In the type of the conversion.
fn given_converted(
    alloc: Global,
    types: &TypeTable,
    faults: &mut Faults,
    place: Pos,
    of: TypeRef,
    calls: bool,
    x: PendingOf<TypeRef>,
) -> Result<Option<ValueOf<TypeRef>>, AllocError>
    ensures { (u : GoType) (y : PendingOf GoType) → TypeStands types.now of u → PendingStands types.now x y → IfOk result (λ r. Answers (given_converted (unnumbered types.now) place u calls y) (ValueStands types.now) faults.old faults.new r) }
{
    match given_type(alloc, types, faults, of, x)? {
        Some(form) => {
            let operand = closed(alloc, form)?;
            let form = converted_form(alloc, place, of, ConversionKind::Same, of, operand)?;
            Ok(Some(ValueOf::Typed {
                pos: place,
                of,
                standing: Standing::Result,
                calls,
                form,
            }))
        }
        None => Ok(None),
    }
}

// In the type that it takes where none is named.
fn default_converted(
    alloc: Global,
    types: &TypeTable,
    basics: Basics,
    faults: &mut Faults,
    place: Pos,
    of: TypeRef,
    calls: bool,
    x: PendingOf<TypeRef>,
) -> Result<Option<ValueOf<TypeRef>>, AllocError>
    ensures { (u : GoType) (y : PendingOf GoType) → AreBasics types.now basics → TypeStands types.now of u → PendingStands types.now x y → IsWaiting y → IfOk result (λ r. Answers (After (IsDefaulted (unnumbered types.now) y) (converted_typed (unnumbered types.now) place u calls)) (ValueStands types.now) faults.old faults.new r) }
{
    match defaulted(alloc, types, basics, faults, x)? {
        Some(it) => converted_typed(alloc, types, faults, place, of, calls, it),
        None => Ok(None),
    }
}
