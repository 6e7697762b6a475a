// Values in places of a type.
ghost use Rattle.std.specs.Prelude.{IfOk};
ghost use Rattle.gno_giving.specs.Basics.{AreBasics};
ghost use Rattle.gno_judging.specs.Answers.{Answers};
ghost use Rattle.gno_assignability.specs.Assignability.{has_nil};
ghost use Rattle.gno_judging.specs.Found.{ConstantTypeStands, FormStands, PendingStands, ValueStands};
ghost use Rattle.gno_judging.specs.Waiting.{IsWaiting};
ghost use Rattle.gno_terms.specs.Lawful.{is_untyped};
ghost use Rattle.gno_terms.specs.Tables.{Is};
ghost use Rattle.gno_terms.specs.Terms.{term_of};
ghost use Rattle.gno_terms.specs.declared.term.GoType.{GoType};
ghost use Rattle.gno_type_classes.specs.Unnumbered.{unnumbered};
ghost use Rattle.gno_typed.specs.declared.expr.TypedExprOf.TheVariants as w;
ghost use Rattle.gno_typing.specs.Classes.{IsOf};
ghost use Rattle.gno_typing.specs.Giving.{IsDefaulted, constant_of, given, held, pending_given};
ghost use Rattle.gno_typing.specs.Verdicts.{After, good, wants};
ghost use Rattle.gno_typing.specs.declared.form.FormOf.TheVariants as f;
ghost use Rattle.gno_typing.specs.declared.pending.PendingOf.{PendingOf};
ghost use Rattle.gno_typing.specs.declared.value.ValueOf.{ValueOf};
ghost use Rattle.gno_values.specs.Pending.{pending_typed};

use gno_constants::Constant;
use gno_giving::{Basics, constant_given, held, typed_given};
use gno_judging::Faults;
use gno_pending::{defaulted, given_type};
use gno_scan::Pos;
use gno_terms::TypeRef;
use gno_type_classes::{default_kind, has_nil, is_boolean, is_integer, is_interface};
use gno_type_table::TypeTable;
use gno_typed::TypedExprOf;
use gno_typing::{FormOf, PendingOf, ValueOf, Waits};
use std::alloc::{AllocError, Global};

/// A value in a place of a type; `None` where it is not assignable, which is noted by `code` at the place `at`, or has a fault of its
/// own there. Go specification, "Assignability".
pub fn given(
    alloc: Global,
    types: &TypeTable,
    basics: Basics,
    faults: &mut Faults,
    code: u8,
    at: Pos,
    of: TypeRef,
    x: ValueOf<TypeRef>,
) -> Result<Option<FormOf<TypeRef>>, AllocError>
    ensures { (u : GoType) (y : ValueOf GoType) → AreBasics types.now basics → Is types.now of u → ValueStands types.now x y → IfOk result (λ r. Answers (given (unnumbered types.now) code at u y) (FormStands types.now) faults.old faults.new r) }
{
    match x {
        ValueOf::Constant {
            pos,
            of: from,
            value,
        } => constant_of(alloc, types, basics, faults, code, at, of, pos, from, value),
        ValueOf::Nil { pos } => Ok(nil_given(types, faults, code, at, of, pos)),
        ValueOf::Typed {
            pos: _pos,
            of: from,
            standing: _standing,
            calls: _calls,
            form,
        } => typed_given(alloc, types, faults, code, at, of, from, form),
        ValueOf::Pending {
            pos: _pos,
            waits,
            calls: _calls,
            form,
        } => pending_given(alloc, types, basics, faults, code, at, of, waits, form),
    }
}

// A constant of a type, or an untyped one.
fn constant_of(
    alloc: Global,
    types: &TypeTable,
    basics: Basics,
    faults: &mut Faults,
    code: u8,
    at: Pos,
    of: TypeRef,
    pos: Pos,
    from: TypeRef,
    value: Constant,
) -> Result<Option<FormOf<TypeRef>>, AllocError>
    ensures { (u s : GoType) → AreBasics types.now basics → Is types.now of u → ConstantTypeStands types.now from s → IfOk result (λ r. Answers (constant_of (is_untyped (term_of s)) (unnumbered types.now) code at u pos s value) (FormStands types.now) faults.old faults.new r) }
{
    match default_kind(types, from) {
        Some(kind) => constant_given(alloc, types, basics, faults, code, at, of, pos, kind, value),
        None => {
            let form = FormOf::Whole(TypedExprOf::Constant {
                pos,
                of: from,
                value,
            });
            typed_given(alloc, types, faults, code, at, of, from, form)
        }
    }
}

// `nil` in a place of a type.
fn nil_given(
    types: &TypeTable,
    faults: &mut Faults,
    code: u8,
    at: Pos,
    of: TypeRef,
    pos: Pos,
) -> Option<FormOf<TypeRef>>
    ensures { (u : GoType) → Is types.now of u → Answers (wants (IsOf has_nil (unnumbered types.now) u) code at (good (f.Whole (w.Nil pos u)))) (FormStands types.now) faults.old faults.new result }
{
    if has_nil(types, of) {
        Some(FormOf::Whole(TypedExprOf::Nil { pos, of }))
    } else {
        faults.note(code, at);
        None
    }
}

/// A value that waits, in a place of a type; `None` where it is not assignable, which is noted: by `code` at the place `at`, or by 46
/// at its first shift where the type is neither an integer type nor an interface type. Go specification, "Assignability" and
/// "Operators".
pub fn pending_given(
    alloc: Global,
    types: &TypeTable,
    basics: Basics,
    faults: &mut Faults,
    code: u8,
    at: Pos,
    of: TypeRef,
    waits: Waits,
    x: PendingOf<TypeRef>,
) -> Result<Option<FormOf<TypeRef>>, AllocError>
    ensures { (u : GoType) (y : PendingOf GoType) → AreBasics types.now basics → Is types.now of u → PendingStands types.now x y → IsWaiting y → IfOk result (λ r. Answers (pending_given (unnumbered types.now) code at u waits y) (FormStands types.now) faults.old faults.new r) }
{
    if is_interface(types, of) {
        default_held(alloc, types, basics, faults, code, at, of, x)
    } else {
        pending_typed(alloc, types, faults, code, at, of, waits, x)
    }
}

// As a value of an interface type, in the type that it takes where none is named.
fn default_held(
    alloc: Global,
    types: &TypeTable,
    basics: Basics,
    faults: &mut Faults,
    code: u8,
    at: Pos,
    of: TypeRef,
    x: PendingOf<TypeRef>,
) -> Result<Option<FormOf<TypeRef>>, AllocError>
    ensures { (u : GoType) (y : PendingOf GoType) → AreBasics types.now basics → Is types.now of u → PendingStands types.now x y → IsWaiting y → IfOk result (λ r. Answers (After (IsDefaulted (unnumbered types.now) y) (held (unnumbered types.now) code at u)) (FormStands types.now) faults.old faults.new r) }
{
    let x = defaulted(alloc, types, basics, faults, x)?;
    match x {
        Some(y) => held(alloc, types, faults, code, at, of, y),
        None => Ok(None),
    }
}

// In a type that is no interface type.
fn pending_typed(
    alloc: Global,
    types: &TypeTable,
    faults: &mut Faults,
    code: u8,
    at: Pos,
    of: TypeRef,
    waits: Waits,
    x: PendingOf<TypeRef>,
) -> Result<Option<FormOf<TypeRef>>, AllocError>
    ensures { (u : GoType) (y : PendingOf GoType) → Is types.now of u → PendingStands types.now x y → IfOk result (λ r. Answers (pending_typed (unnumbered types.now) code at u waits y) (FormStands types.now) faults.old faults.new r) }
{
    match waits {
        Waits::Boolean => {
            if is_boolean(types, of) {
                given_type(alloc, types, faults, of, x)
            } else {
                drop(x);
                faults.note(code, at);
                Ok(None)
            }
        }
        Waits::Integer(shift) => {
            if is_integer(types, of) {
                given_type(alloc, types, faults, of, x)
            } else {
                drop(x);
                faults.note(46, shift);
                Ok(None)
            }
        }
    }
}
