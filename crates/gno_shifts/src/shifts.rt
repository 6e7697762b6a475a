// Shifts. Go specification, "Operators", "Integer operators" and "Constant expressions".
ghost use Rattle.std.specs.Prelude.{◌≡◌, ◌↔◌, [], ◌∷◌, IfOk, IsTrue, Option, Some, true};
ghost use Rattle.gno_base.specs.declared.kind.Kind.TheVariants as k;
ghost use Rattle.gno_constants.specs.Exact.{exact};
ghost use Rattle.gno_giving.specs.Basics.{AreBasics};
ghost use Rattle.gno_judging.specs.Answers.{Answers};
ghost use Rattle.gno_judging.specs.Found.{ConstantTypeStands, FormStands, PendingStands, TypeStands, ValueStands};
ghost use Rattle.gno_judging.specs.Stands.{Stands};
ghost use Rattle.gno_judging.specs.Waiting.{IsWaiting};
ghost use Rattle.gno_seen.specs.Seen.{constant_in};
ghost use Rattle.gno_terms.specs.Lawful.{is_untyped};
ghost use Rattle.gno_terms.specs.Tables.{Table};
ghost use Rattle.gno_terms.specs.Terms.{term_of};
ghost use Rattle.gno_terms.specs.declared.term.GoType.{GoType};
ghost use Rattle.gno_type_classes.specs.Unnumbered.{unnumbered};
ghost use Rattle.gno_typed.specs.declared.expr.TypedExprOf.{TypedExprOf};
ghost use Rattle.gno_typed.specs.declared.expr.TypedExprOf.TheVariants as w;
ghost use Rattle.gno_typing.specs.Binary.{IsNegative, calls_in, constant_shifted, counted, counted_constant, fold_of, shift, shifted};
ghost use Rattle.gno_typing.specs.Classes.{IsOf, basic, is_integer};
ghost use Rattle.gno_typing.specs.Forms.{closed};
ghost use Rattle.gno_typing.specs.Giving.{IsGiven, shifted_by};
ghost use Rattle.gno_typing.specs.Unary.{worked_out};
ghost use Rattle.gno_typing.specs.Verdicts.{After, good, wants};
ghost use Rattle.gno_typing.specs.declared.fault.Fault.{Fault};
ghost use Rattle.gno_typing.specs.declared.form.FormOf.{FormOf};
ghost use Rattle.gno_typing.specs.declared.pending.PendingOf.{PendingOf};
ghost use Rattle.gno_typing.specs.declared.pending.PendingOf.TheVariants as p;
ghost use Rattle.gno_typing.specs.declared.pending.PendingOperationOf.TheVariants as o;
ghost use Rattle.gno_typing.specs.declared.value.Standing.TheVariants as standing;
ghost use Rattle.gno_typing.specs.declared.value.ValueOf.{ValueOf};
ghost use Rattle.gno_typing.specs.declared.value.ValueOf.TheVariants as v;
ghost use Rattle.gno_typing.specs.declared.value.Waits.TheVariants as waits;

use gno_constants::Constant;
use gno_giving::{Basics, closed};
use gno_judging::Faults;
use gno_operations::{
    fold_exactly, fold_of, is_rune, result_of, with_operand, with_pending, worked_out,
};
use gno_pending::given_type;
use gno_scan::Pos;
use gno_seen::{calls_in, constant_in, either};
use gno_terms::TypeRef;
use gno_tree::BinaryOperator;
use gno_type_classes::{is_integer, is_representable, is_untyped};
use gno_type_table::TypeTable;
use gno_typed::{TypedExpr, TypedExprOf};
use gno_typing::{FormOf, PendingOf, PendingOperationOf, ValueOf, Waits};
use std::alloc::{AllocError, Global};

/// What a shift of a value by another gives; `None` where it gives nothing, which is noted: an operand that is no integer, a constant
/// count that is negative or too great, or a constant that its type has not. An `Err` comes where there is no memory. Go
/// specification, "Operators", "Integer operators" and "Constant expressions".
pub fn shift(
    alloc: Global,
    types: &TypeTable,
    basics: Basics,
    faults: &mut Faults,
    place: Pos,
    operator: BinaryOperator,
    left: ValueOf<TypeRef>,
    right: ValueOf<TypeRef>,
) -> Result<Option<ValueOf<TypeRef>>, AllocError>
    ensures { (l r : ValueOf GoType) → AreBasics types.now basics → ValueStands types.now left l → ValueStands types.now right r → IfOk result (λ it. Answers (shift (unnumbered types.now) place operator l r) (ValueStands types.now) faults.old faults.new it) }
{
    let calls = calls_in(&right);
    match constant_in(&right) {
        Ok(by) => shifted_by_value(
            alloc, types, basics, faults, place, operator, left, by, calls, right,
        ),
        Err(error) => {
            drop(left);
            drop(right);
            Err(error)
        }
    }
}

// A shift by a value. `by` is the constant that it is, `calls` says whether it holds a call.
fn shifted_by_value(
    alloc: Global,
    types: &TypeTable,
    basics: Basics,
    faults: &mut Faults,
    place: Pos,
    operator: BinaryOperator,
    left: ValueOf<TypeRef>,
    by: Option<Constant>,
    calls: bool,
    right: ValueOf<TypeRef>,
) -> Result<Option<ValueOf<TypeRef>>, AllocError>
    ensures { (l r : ValueOf GoType) → AreBasics types.now basics → ValueStands types.now left l → ValueStands types.now right r → by ≡ constant_in r → calls ≡ calls_in r → IfOk result (λ it. Answers (shift (unnumbered types.now) place operator l r) (ValueStands types.now) faults.old faults.new it) }
{
    match counted(alloc, types, basics, faults, place, right) {
        Ok(count) => shifted_where_counted(
            alloc, types, faults, place, operator, left, by, calls, count,
        ),
        Err(error) => {
            drop(left);
            drop(by);
            Err(error)
        }
    }
}

// A shift by a count, where there is one.
fn shifted_where_counted(
    alloc: Global,
    types: &TypeTable,
    faults: &mut Faults,
    place: Pos,
    operator: BinaryOperator,
    left: ValueOf<TypeRef>,
    by: Option<Constant>,
    calls: bool,
    count: Option<TypedExpr>,
) -> Result<Option<ValueOf<TypeRef>>, AllocError>
    ensures { (first : Option Fault) (l r : ValueOf GoType) → ValueStands types.now left l → by ≡ constant_in r → calls ≡ calls_in r → Answers (counted (unnumbered types.now) place r) (Stands types.now) first faults.old count → IfOk result (λ it. Answers (shift (unnumbered types.now) place operator l r) (ValueStands types.now) first faults.new it) }
{
    match count {
        Some(count) => shifted(
            alloc, types, faults, place, operator, left, by, calls, count,
        ),
        None => {
            drop(left);
            drop(by);
            Ok(None)
        }
    }
}

// ---- the count

// The count of a shift: an integer, or an untyped constant that takes the type `uint`.
fn counted(
    alloc: Global,
    types: &TypeTable,
    basics: Basics,
    faults: &mut Faults,
    place: Pos,
    x: ValueOf<TypeRef>,
) -> Result<Option<TypedExpr>, AllocError>
    ensures { (y : ValueOf GoType) → AreBasics types.now basics → ValueStands types.now x y → IfOk result (λ r. Answers (counted (unnumbered types.now) place y) (Stands types.now) faults.old faults.new r) }
{
    match x {
        ValueOf::Constant { pos, of, value } => {
            Ok(constant_counted(types, basics, faults, place, pos, of, value))
        }
        ValueOf::Nil { pos: _pos } => {
            faults.note(46, place);
            Ok(None)
        }
        ValueOf::Typed {
            pos: _pos,
            of,
            standing: _standing,
            calls: _calls,
            form,
        } => typed_counted(alloc, types, faults, place, of, form),
        ValueOf::Pending {
            pos,
            waits,
            calls,
            form,
        } => waiting_counted(alloc, types, basics, faults, place, pos, waits, calls, form),
    }
}

fn constant_counted(
    types: &TypeTable,
    basics: Basics,
    faults: &mut Faults,
    place: Pos,
    at: Pos,
    of: TypeRef,
    value: Constant,
) -> Option<TypedExpr>
    ensures { (s : GoType) → AreBasics types.now basics → ConstantTypeStands types.now of s → Answers (counted (unnumbered types.now) place (v.Constant at s value)) (Stands types.now) faults.old faults.new result }
{
    if !is_integer(types, of) {
        faults.note(46, place);
        return None;
    }
    if is_negative(&value) {
        faults.note(45, place);
        return None;
    }
    if is_untyped(types, of) {
        untyped_counted(types, basics, faults, at, value)
    } else {
        Some(TypedExprOf::Constant { pos: at, of, value })
    }
}

// Go specification, "Integer operators": a count is not negative.
fn is_negative(value: &Constant) -> bool
    ensures { IsTrue result ↔ IsNegative value.now }
{
    match value {
        Constant::Whole(n) => *n < 0,
        _ => false,
    }
}

fn untyped_counted(
    types: &TypeTable,
    basics: Basics,
    faults: &mut Faults,
    at: Pos,
    value: Constant,
) -> Option<TypedExpr>
    ensures { (table : Table) (s : GoType) (place : Pos) → AreBasics types.now basics → Answers (counted_constant true (unnumbered types.now) place at s value) (Stands types.now) faults.old faults.new result }
{
    if is_representable(types, &value, basics.uint) {
        Some(TypedExprOf::Constant {
            pos: at,
            of: basics.uint,
            value,
        })
    } else {
        faults.note(43, at);
        None
    }
}

fn typed_counted(
    alloc: Global,
    types: &TypeTable,
    faults: &mut Faults,
    place: Pos,
    of: TypeRef,
    form: FormOf<TypeRef>,
) -> Result<Option<TypedExpr>, AllocError>
    ensures { (s : GoType) (y : FormOf GoType) → TypeStands types.now of s → FormStands types.now form y → IfOk result (λ r. Answers (wants (IsOf is_integer (unnumbered types.now) s) 46 place (good (closed y))) (Stands types.now) faults.old faults.new r) }
{
    if is_integer(types, of) {
        let count = closed(alloc, form)?;
        Ok(Some(count))
    } else {
        drop(form);
        faults.note(46, place);
        Ok(None)
    }
}

fn waiting_counted(
    alloc: Global,
    types: &TypeTable,
    basics: Basics,
    faults: &mut Faults,
    place: Pos,
    at: Pos,
    waits: Waits,
    calls: bool,
    form: PendingOf<TypeRef>,
) -> Result<Option<TypedExpr>, AllocError>
    ensures { (y : PendingOf GoType) → AreBasics types.now basics → PendingStands types.now form y → IfOk result (λ r. Answers (counted (unnumbered types.now) place (v.Pending at waits calls y)) (Stands types.now) faults.old faults.new r) }
{
    match waits {
        Waits::Boolean => {
            drop(form);
            faults.note(46, place);
            Ok(None)
        }
        Waits::Integer(_) => integer_counted(alloc, types, basics, faults, form),
    }
}

fn integer_counted(
    alloc: Global,
    types: &TypeTable,
    basics: Basics,
    faults: &mut Faults,
    form: PendingOf<TypeRef>,
) -> Result<Option<TypedExpr>, AllocError>
    ensures { (y : PendingOf GoType) → AreBasics types.now basics → PendingStands types.now form y → IfOk result (λ r. Answers (After (IsGiven (unnumbered types.now) (basic k.Uint) y) (λ x. good (closed x))) (Stands types.now) faults.old faults.new r) }
{
    match given_type(alloc, types, faults, basics.uint, form)? {
        Some(form) => {
            let count = closed(alloc, form)?;
            Ok(Some(count))
        }
        None => Ok(None),
    }
}

// ---- the shift

// A shift by a count. `by` is the constant that the count is, `calls` says whether it holds a call.
fn shifted(
    alloc: Global,
    types: &TypeTable,
    faults: &mut Faults,
    place: Pos,
    operator: BinaryOperator,
    left: ValueOf<TypeRef>,
    by: Option<Constant>,
    calls: bool,
    count: TypedExpr,
) -> Result<Option<ValueOf<TypeRef>>, AllocError>
    ensures { (l r : ValueOf GoType) (y : TypedExprOf GoType) → ValueStands types.now left l → by ≡ constant_in r → calls ≡ calls_in r → Stands types.now count y → IfOk result (λ it. Answers (shifted (unnumbered types.now) place operator l r y) (ValueStands types.now) faults.old faults.new it) }
{
    match left {
        ValueOf::Constant { pos, of, value } => constant_shifted(
            alloc, types, faults, place, operator, pos, of, value, by, calls, count,
        ),
        ValueOf::Nil { pos: _pos } => {
            drop(by);
            drop(count);
            faults.note(46, place);
            Ok(None)
        }
        ValueOf::Typed {
            pos: _pos,
            of,
            standing: _standing,
            calls: more,
            form,
        } => {
            drop(by);
            typed_shifted(
                alloc,
                types,
                faults,
                place,
                operator,
                of,
                either(more, calls),
                form,
                count,
            )
        }
        ValueOf::Pending {
            pos,
            waits,
            calls: more,
            form,
        } => {
            drop(by);
            waiting_shifted(
                alloc, faults, place, operator, pos, waits, more, calls, form, count,
            )
        }
    }
}

fn constant_shifted(
    alloc: Global,
    types: &TypeTable,
    faults: &mut Faults,
    place: Pos,
    operator: BinaryOperator,
    at: Pos,
    of: TypeRef,
    value: Constant,
    by: Option<Constant>,
    calls: bool,
    count: TypedExpr,
) -> Result<Option<ValueOf<TypeRef>>, AllocError>
    ensures { (s : GoType) (r : ValueOf GoType) (y : TypedExprOf GoType) → ConstantTypeStands types.now of s → by ≡ constant_in r → calls ≡ calls_in r → Stands types.now count y → IfOk result (λ it. Answers (shifted (unnumbered types.now) place operator (v.Constant at s value) r y) (ValueStands types.now) faults.old faults.new it) }
{
    match by {
        Some(other) => {
            drop(count);
            by_constant(alloc, types, faults, place, operator, of, value, other)
        }
        None => by_value(
            alloc, types, faults, place, operator, at, of, value, calls, count,
        ),
    }
}

// A shift of a constant by a constant.
fn by_constant(
    alloc: Global,
    types: &TypeTable,
    faults: &mut Faults,
    place: Pos,
    operator: BinaryOperator,
    of: TypeRef,
    value: Constant,
    by: Constant,
) -> Result<Option<ValueOf<TypeRef>>, AllocError>
    ensures { (s : GoType) → ConstantTypeStands types.now of s → IfOk result (λ it. Answers (wants (IsOf is_integer (unnumbered types.now) s) 46 place (worked_out (unnumbered types.now) place s (exact (fold_of operator) value by))) (ValueStands types.now) faults.old faults.new it) }
{
    if is_integer(types, of) {
        constants_shifted(alloc, types, faults, place, operator, of, value, by)
    } else {
        drop(value);
        drop(by);
        faults.note(46, place);
        Ok(None)
    }
}

// A shift of an integer constant by a constant.
fn constants_shifted(
    alloc: Global,
    types: &TypeTable,
    faults: &mut Faults,
    place: Pos,
    operator: BinaryOperator,
    of: TypeRef,
    value: Constant,
    by: Constant,
) -> Result<Option<ValueOf<TypeRef>>, AllocError>
    ensures { (s : GoType) → ConstantTypeStands types.now of s → IfOk result (λ it. Answers (worked_out (unnumbered types.now) place s (exact (fold_of operator) value by)) (ValueStands types.now) faults.old faults.new it) }
{
    let x = fold_exactly(alloc, fold_of(operator), &value, &by)?;
    Ok(worked_out(types, faults, place, of, x))
}

// A shift of a constant by a value that is no constant.
fn by_value(
    alloc: Global,
    types: &TypeTable,
    faults: &mut Faults,
    place: Pos,
    operator: BinaryOperator,
    at: Pos,
    of: TypeRef,
    value: Constant,
    calls: bool,
    count: TypedExpr,
) -> Result<Option<ValueOf<TypeRef>>, AllocError>
    ensures { (s : GoType) (y : TypedExprOf GoType) → ConstantTypeStands types.now of s → Stands types.now count y → IfOk result (λ it. Answers (wants (IsOf is_integer (unnumbered types.now) s) 46 place (constant_shifted (is_untyped (term_of s)) place operator at s value calls y)) (ValueStands types.now) faults.old faults.new it) }
{
    if is_integer(types, of) {
        let x = constant_by_value(alloc, types, place, operator, at, of, value, calls, count)?;
        Ok(Some(x))
    } else {
        drop(count);
        faults.note(46, place);
        Ok(None)
    }
}

fn constant_by_value(
    alloc: Global,
    types: &TypeTable,
    place: Pos,
    operator: BinaryOperator,
    at: Pos,
    of: TypeRef,
    value: Constant,
    calls: bool,
    count: TypedExpr,
) -> Result<ValueOf<TypeRef>, AllocError>
    ensures { (f : Option Fault) (s : GoType) (y : TypedExprOf GoType) → ConstantTypeStands types.now of s → Stands types.now count y → IfOk result (λ it. Answers (constant_shifted (is_untyped (term_of s)) place operator at s value calls y) (ValueStands types.now) f f (Some it)) }
{
    if is_untyped(types, of) {
        let rune = is_rune(types, of);
        untyped_shifted(alloc, place, operator, at, value, rune, calls, count)
    } else {
        let form = FormOf::Whole(TypedExprOf::Constant { pos: at, of, value });
        let form = with_operand(alloc, of, place, operator, form, count)?;
        Ok(result_of(place, of, calls, form))
    }
}

// An untyped constant waits for its type where it is shifted by a count that is no constant.
fn untyped_shifted(
    alloc: Global,
    place: Pos,
    operator: BinaryOperator,
    at: Pos,
    value: Constant,
    rune: bool,
    calls: bool,
    count: TypedExpr,
) -> Result<ValueOf<TypeRef>, AllocError>
    ensures { (table : Table) (y : TypedExprOf GoType) → Stands table count y → IfOk result (λ it. ValueStands table it (v.Pending place (waits.Integer place) calls (p.Chain (p.Constant at value rune) (o.Count place operator y ∷ [])))) }
{
    let first = PendingOf::Constant {
        pos: at,
        value,
        rune,
    };
    let operation = PendingOperationOf::Count {
        pos: place,
        operator,
        count,
    };
    let form = with_pending(alloc, first, operation)?;
    Ok(ValueOf::Pending {
        pos: place,
        waits: Waits::Integer(place),
        calls,
        form,
    })
}

fn typed_shifted(
    alloc: Global,
    types: &TypeTable,
    faults: &mut Faults,
    place: Pos,
    operator: BinaryOperator,
    of: TypeRef,
    calls: bool,
    form: FormOf<TypeRef>,
    count: TypedExpr,
) -> Result<Option<ValueOf<TypeRef>>, AllocError>
    ensures { (s : GoType) (x : FormOf GoType) (y : TypedExprOf GoType) → TypeStands types.now of s → FormStands types.now form x → Stands types.now count y → IfOk result (λ it. Answers (wants (IsOf is_integer (unnumbered types.now) s) 46 place (good (v.Typed place s standing.Result calls (shifted_by s place operator x y)))) (ValueStands types.now) faults.old faults.new it) }
{
    if is_integer(types, of) {
        let form = with_operand(alloc, of, place, operator, form, count)?;
        Ok(Some(result_of(place, of, calls, form)))
    } else {
        drop(form);
        drop(count);
        faults.note(46, place);
        Ok(None)
    }
}

fn waiting_shifted(
    alloc: Global,
    faults: &mut Faults,
    place: Pos,
    operator: BinaryOperator,
    at: Pos,
    waits: Waits,
    more: bool,
    calls: bool,
    form: PendingOf<TypeRef>,
    count: TypedExpr,
) -> Result<Option<ValueOf<TypeRef>>, AllocError>
    ensures { (table rules : Table) (x : PendingOf GoType) (r : ValueOf GoType) (y : TypedExprOf GoType) → PendingStands table form x → IsWaiting x → calls ≡ calls_in r → Stands table count y → IfOk result (λ it. Answers (shifted rules place operator (v.Pending at waits more x) r y) (ValueStands table) faults.old faults.new it) }
{
    match waits {
        Waits::Boolean => {
            drop(form);
            drop(count);
            faults.note(46, place);
            Ok(None)
        }
        Waits::Integer(first) => {
            let operation = PendingOperationOf::Count {
                pos: place,
                operator,
                count,
            };
            let form = with_pending(alloc, form, operation)?;
            Ok(Some(ValueOf::Pending {
                pos: place,
                waits: Waits::Integer(first),
                calls: either(more, calls),
                form,
            }))
        }
    }
}
