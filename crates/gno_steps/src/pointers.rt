// `*x` and `&x`. Go specification, "Address operators".
ghost use Rattle.std.specs.Prelude.{◌≡◌, IfOk};
ghost use Rattle.gno_judging.specs.Answers.{Answers};
ghost use Rattle.gno_judging.specs.Found.{FormStands, OperandStands, TypeStands, ValueStands};
ghost use Rattle.gno_scan.specs.declared.token.Pos.{Pos};
ghost use Rattle.gno_terms.specs.Tables.{Grows};
ghost use Rattle.gno_terms.specs.declared.term.GoType.{GoType};
ghost use Rattle.gno_type_classes.specs.Unnumbered.{unnumbered};
ghost use Rattle.gno_typed.specs.declared.expr.TypedExprOf.TheVariants as w;
ghost use Rattle.gno_typing.specs.Forms.{closed};
ghost use Rattle.gno_typing.specs.Pointers.{address, addressed, dereference, of_value, pointed, pointer_to};
ghost use Rattle.gno_typing.specs.declared.form.FormOf.TheVariants as f;
ghost use Rattle.gno_typing.specs.declared.form.FormOf.{FormOf};
ghost use Rattle.gno_typing.specs.declared.operand.OperandOf.{OperandOf};
ghost use Rattle.gno_typing.specs.declared.value.Standing.TheVariants as st;
ghost use Rattle.gno_typing.specs.declared.value.Standing.{Standing};
ghost use Rattle.gno_typing.specs.declared.value.ValueOf.TheVariants as v;
ghost use Rattle.gno_typing.specs.declared.value.ValueOf.{ValueOf};

use gno_base::Shared;
use gno_giving::closed;
use gno_judging::Faults;
use gno_made_types::pointer_to;
use gno_scan::Pos;
use gno_seen::as_operand;
use gno_terms::TypeRef;
use gno_type_classes::follows;
use gno_type_table::TypeTable;
use gno_typed::{Addressed, TypedExprOf};
use gno_typing::{FormOf, OperandOf, Standing, ValueOf};
use gno_values::as_value;
use std::alloc::{AllocError, Global};

/// `*x`, whose `*` is at `place`: of a type, the type of pointers to it. `None` where it is not allowed, which is noted: 57 where `x` is
/// no pointer. Go specification, "Address operators" and "Pointer types". An `Err` comes where there is no memory.
pub fn dereference(
    alloc: Global,
    types: &mut TypeTable,
    faults: &mut Faults,
    place: Pos,
    x: OperandOf<TypeRef>,
) -> Result<Option<OperandOf<TypeRef>>, AllocError>
    ensures answers { (y : OperandOf GoType) → OperandStands types.old x y → IfOk result (λ r. Answers (dereference (unnumbered types.old) place y) (OperandStands types.new) faults.old faults.new r) }
    ensures grows { Grows types.old types.new }
    ensures definitions { types.new.definitions ≡ types.old.definitions }
{
    match x {
        OperandOf::Type { pos: _pos, of } => {
            let of = pointer_to(types, of)?;
            Ok(Some(OperandOf::Type { pos: place, of }))
        }
        other => pointed_operand(alloc, types, faults, place, other),
    }
}

// Of an operand that is no type.
fn pointed_operand(
    alloc: Global,
    types: &TypeTable,
    faults: &mut Faults,
    place: Pos,
    x: OperandOf<TypeRef>,
) -> Result<Option<OperandOf<TypeRef>>, AllocError>
    ensures { (y : OperandOf GoType) → OperandStands types.now x y → IfOk result (λ r. Answers (of_value y (pointed (unnumbered types.now) place)) (OperandStands types.now) faults.old faults.new r) }
{
    match as_value(alloc, faults, x)? {
        Some(value) => {
            let found = pointed(alloc, types, faults, place, value)?;
            Ok(as_operand(found))
        }
        None => Ok(None),
    }
}

// What a pointer points at is a place.
fn pointed(
    alloc: Global,
    types: &TypeTable,
    faults: &mut Faults,
    place: Pos,
    x: ValueOf<TypeRef>,
) -> Result<Option<ValueOf<TypeRef>>, AllocError>
    ensures { (y : ValueOf GoType) → ValueStands types.now x y → IfOk result (λ r. Answers (pointed (unnumbered types.now) place y) (ValueStands types.now) faults.old faults.new r) }
{
    match x {
        ValueOf::Typed {
            pos: _pos,
            of,
            standing: _standing,
            calls,
            form,
        } => pointed_typed(alloc, types, faults, place, of, calls, form),
        other => {
            drop(other);
            faults.note(57, place);
            Ok(None)
        }
    }
}

// Of a value of a type.
fn pointed_typed(
    alloc: Global,
    types: &TypeTable,
    faults: &mut Faults,
    place: Pos,
    of: TypeRef,
    calls: bool,
    form: FormOf<TypeRef>,
) -> Result<Option<ValueOf<TypeRef>>, AllocError>
    ensures { (s : GoType) (y : FormOf GoType) (at : Pos) (stands : Standing) → TypeStands types.now of s → FormStands types.now form y → IfOk result (λ r. Answers (pointed (unnumbered types.now) place (v.Typed at s stands calls y)) (ValueStands types.now) faults.old faults.new r) }
{
    match follows(types, of) {
        Some(of) => {
            let operand = closed(alloc, form)?;
            let operand = Shared::new(alloc, operand)?;
            Ok(Some(ValueOf::Typed {
                pos: place,
                of,
                standing: Standing::Place,
                calls,
                form: FormOf::Whole(TypedExprOf::Dereference {
                    pos: place,
                    of,
                    operand,
                }),
            }))
        }
        None => {
            drop(form);
            faults.note(57, place);
            Ok(None)
        }
    }
}

/// `&x`, whose `&` is at `place`; `None` where it is not allowed, which is noted: 56 where `x` is no place and no composite literal. Go
/// specification, "Address operators". An `Err` comes where there is no memory.
pub fn address(
    alloc: Global,
    types: &mut TypeTable,
    faults: &mut Faults,
    place: Pos,
    x: OperandOf<TypeRef>,
) -> Result<Option<OperandOf<TypeRef>>, AllocError>
    ensures answers { (y : OperandOf GoType) → OperandStands types.old x y → IfOk result (λ r. Answers (address place y) (OperandStands types.new) faults.old faults.new r) }
    ensures grows { Grows types.old types.new }
    ensures definitions { types.new.definitions ≡ types.old.definitions }
{
    match as_value(alloc, faults, x)? {
        Some(value) => {
            let found = addressed(alloc, types, faults, place, value)?;
            Ok(as_operand(found))
        }
        None => Ok(None),
    }
}

// The address of a place, or of a new variable that a composite literal gives its value.
fn addressed(
    alloc: Global,
    types: &mut TypeTable,
    faults: &mut Faults,
    place: Pos,
    x: ValueOf<TypeRef>,
) -> Result<Option<ValueOf<TypeRef>>, AllocError>
    ensures answers { (y : ValueOf GoType) → ValueStands types.old x y → IfOk result (λ r. Answers (addressed place y) (ValueStands types.new) faults.old faults.new r) }
    ensures grows { Grows types.old types.new }
    ensures definitions { types.new.definitions ≡ types.old.definitions }
{
    match x {
        ValueOf::Typed {
            pos: _pos,
            of,
            standing,
            calls,
            form,
        } => addressed_typed(alloc, types, faults, place, of, standing, calls, form),
        other => {
            drop(other);
            faults.note(56, place);
            Ok(None)
        }
    }
}

// Of a value of a type.
fn addressed_typed(
    alloc: Global,
    types: &mut TypeTable,
    faults: &mut Faults,
    place: Pos,
    of: TypeRef,
    standing: Standing,
    calls: bool,
    form: FormOf<TypeRef>,
) -> Result<Option<ValueOf<TypeRef>>, AllocError>
    ensures answers { (s : GoType) (y : FormOf GoType) (at : Pos) → TypeStands types.old of s → FormStands types.old form y → IfOk result (λ r. Answers (addressed place (v.Typed at s standing calls y)) (ValueStands types.new) faults.old faults.new r) }
    ensures grows { Grows types.old types.new }
    ensures definitions { types.new.definitions ≡ types.old.definitions }
{
    match standing {
        Standing::Place => {
            let it = pointer(alloc, types, place, of, calls, form, Addressed::Place)?;
            Ok(Some(it))
        }
        Standing::Literal => {
            let it = pointer(alloc, types, place, of, calls, form, Addressed::Literal)?;
            Ok(Some(it))
        }
        _ => {
            drop(form);
            faults.note(56, place);
            Ok(None)
        }
    }
}

// A pointer to what a form stands for.
fn pointer(
    alloc: Global,
    types: &mut TypeTable,
    place: Pos,
    of: TypeRef,
    calls: bool,
    form: FormOf<TypeRef>,
    addressed: Addressed,
) -> Result<ValueOf<TypeRef>, AllocError>
    ensures stands { (s : GoType) (y : FormOf GoType) → TypeStands types.old of s → FormStands types.old form y → IfOk result (λ r. ValueStands types.new r (v.Typed place (pointer_to s) st.Result calls (f.Whole (w.Address place (pointer_to s) (closed y) addressed)))) }
    ensures grows { Grows types.old types.new }
    ensures definitions { types.new.definitions ≡ types.old.definitions }
{
    let operand = closed(alloc, form)?;
    let operand = Shared::new(alloc, operand)?;
    let of = pointer_to(types, of)?;
    Ok(ValueOf::Typed {
        pos: place,
        of,
        standing: Standing::Result,
        calls,
        form: FormOf::Whole(TypedExprOf::Address {
            pos: place,
            of,
            operand,
            addressed,
        }),
    })
}
