// Operators before their operand.
ghost use Rattle.std.specs.Prelude.{◌≡◌, ◌↔◌, IfOk, IsTrue, true};
ghost use Rattle.gno_constants.specs.Exact.{Exact};
ghost use Rattle.gno_embedding.specs.Embedding.{IsKnown};
ghost use Rattle.gno_judging.specs.Answers.{Answers};
ghost use Rattle.gno_judging.specs.Found.{ConstantTypeStands, FormStands, PendingStands, TypeStands, ValueStands};
ghost use Rattle.gno_judging.specs.Waiting.{IsWaiting};
ghost use Rattle.gno_operations.specs.Folding.{WorksOut};
ghost use Rattle.gno_terms.specs.Tables.{Is, Table, Underlying};
ghost use Rattle.gno_terms.specs.Terms.{term_of, term_with};
ghost use Rattle.gno_terms.specs.declared.term.GoType.{GoType};
ghost use Rattle.gno_terms.specs.declared.term.TypeRef.{TypeRef};
ghost use Rattle.gno_type_classes.specs.Unnumbered.{unnumbered};
ghost use Rattle.gno_typed.specs.declared.expr.TypedExprOf.TheVariants as w;
ghost use Rattle.gno_typing.specs.Classes.{IsOf};
ghost use Rattle.gno_typing.specs.Forms.{closed};
ghost use Rattle.gno_typing.specs.Unary.{UnaryConstant, ones, ones_of_kind, takes, takes_waiting, unary, unary_exact};
ghost use Rattle.gno_typing.specs.Verdicts.{good, wants};
ghost use Rattle.gno_typing.specs.declared.form.FormOf.{FormOf};
ghost use Rattle.gno_typing.specs.declared.form.FormOf.TheVariants as f;
ghost use Rattle.gno_typing.specs.declared.pending.PendingOf.{PendingOf};
ghost use Rattle.gno_typing.specs.declared.pending.PendingOf.TheVariants as p;
ghost use Rattle.gno_typing.specs.declared.value.Standing.TheVariants as standing;
ghost use Rattle.gno_typing.specs.declared.value.ValueOf.{ValueOf};
ghost use Rattle.gno_typing.specs.declared.value.ValueOf.TheVariants as v;

use gno_base::{Boxed, Kind, Shared};
use gno_constants::{Constant, FoldOp};
use gno_giving::closed;
use gno_judging::Faults;
use gno_operations::{Folded, fold_exactly, worked_out};
use gno_scan::Pos;
use gno_terms::{Term, TypeRef};
use gno_tree::UnaryOperator;
use gno_type_classes::{is_boolean, is_integer, underlying};
use gno_type_table::TypeTable;
use gno_typed::TypedExprOf;
use gno_typing::{FormOf, PendingOf, Standing, ValueOf, Waits};
use std::alloc::{AllocError, Global};

/// What an operator before a value gives; `None` where it gives nothing, which is noted. Go specification, "Operators", "Arithmetic
/// operators", "Logical operators" and "Constant expressions". An `Err` comes only for want of memory.
pub fn unary(
    alloc: Global,
    types: &TypeTable,
    faults: &mut Faults,
    place: Pos,
    operator: UnaryOperator,
    x: ValueOf<TypeRef>,
) -> Result<Option<ValueOf<TypeRef>>, AllocError>
    ensures { (y : ValueOf GoType) → ValueStands types.now x y → IfOk result (λ r. Answers (unary (unnumbered types.now) place operator y) (ValueStands types.now) faults.old faults.new r) }
{
    match x {
        ValueOf::Constant {
            pos: _pos,
            of,
            value,
        } => { of_constant(alloc, types, faults, place, operator, of, value) }
        ValueOf::Nil { pos: _pos } => {
            faults.note(46, place);
            Ok(None)
        }
        ValueOf::Typed {
            pos: _pos,
            of,
            standing: _standing,
            calls,
            form,
        } => of_typed(alloc, types, faults, place, operator, of, calls, form),
        ValueOf::Pending {
            pos: _pos,
            waits,
            calls,
            form,
        } => of_waiting(alloc, faults, place, operator, waits, calls, form),
    }
}

fn of_constant(
    alloc: Global,
    types: &TypeTable,
    faults: &mut Faults,
    place: Pos,
    operator: UnaryOperator,
    of: TypeRef,
    value: Constant,
) -> Result<Option<ValueOf<TypeRef>>, AllocError>
    ensures { (s : GoType) → ConstantTypeStands types.now of s → IfOk result (λ r. Answers (wants (IsOf (takes operator) (unnumbered types.now) s) 46 place (UnaryConstant (unnumbered types.now) place operator s value)) (ValueStands types.now) faults.old faults.new r) }
{
    if takes(types, operator, of) {
        let full = ones(types, of);
        let x = exactly(alloc, operator, full, value)?;
        Ok(worked_out(types, faults, place, of, x))
    } else {
        faults.note(46, place);
        Ok(None)
    }
}

fn of_typed(
    alloc: Global,
    types: &TypeTable,
    faults: &mut Faults,
    place: Pos,
    operator: UnaryOperator,
    of: TypeRef,
    calls: bool,
    form: FormOf<TypeRef>,
) -> Result<Option<ValueOf<TypeRef>>, AllocError>
    ensures { (s : GoType) (y : FormOf GoType) → TypeStands types.now of s → FormStands types.now form y → IfOk result (λ r. Answers (wants (IsOf (takes operator) (unnumbered types.now) s) 46 place (good (v.Typed place s standing.Result calls (f.Whole (w.Unary place s operator (closed y)))))) (ValueStands types.now) faults.old faults.new r) }
{
    if takes(types, operator, of) {
        let operand = closed(alloc, form)?;
        let operand = Shared::new(alloc, operand)?;
        Ok(Some(ValueOf::Typed {
            pos: place,
            of,
            standing: Standing::Result,
            calls,
            form: FormOf::Whole(TypedExprOf::Unary {
                pos: place,
                of,
                operator,
                operand,
            }),
        }))
    } else {
        drop(form);
        faults.note(46, place);
        Ok(None)
    }
}

fn of_waiting(
    alloc: Global,
    faults: &mut Faults,
    place: Pos,
    operator: UnaryOperator,
    waits: Waits,
    calls: bool,
    form: PendingOf<TypeRef>,
) -> Result<Option<ValueOf<TypeRef>>, AllocError>
    ensures { (table : Table) (y : PendingOf GoType) → PendingStands table form y → IsWaiting y → IfOk result (λ r. Answers (wants (takes_waiting operator waits ≡ true) 46 place (good (v.Pending place waits calls (p.Unary place operator y)))) (ValueStands table) faults.old faults.new r) }
{
    if takes_waiting(operator, waits) {
        let operand = Boxed::new(alloc, form)?;
        Ok(Some(ValueOf::Pending {
            pos: place,
            waits,
            calls,
            form: PendingOf::Unary {
                pos: place,
                operator,
                operand,
            },
        }))
    } else {
        drop(form);
        faults.note(46, place);
        Ok(None)
    }
}

// Whether the operator takes values of a type.
fn takes(types: &TypeTable, operator: UnaryOperator, of: TypeRef) -> bool
    ensures { (s : GoType) → Is types.now of s → IsTrue result ↔ IsOf (takes operator) (unnumbered types.now) s }
{
    match operator {
        UnaryOperator::Not => is_boolean(types, of),
        _ => is_integer(types, of),
    }
}

fn takes_waiting(operator: UnaryOperator, waits: Waits) -> bool
    ensures { result ≡ takes_waiting operator waits }
{
    match operator {
        UnaryOperator::Not => matches!(waits, Waits::Boolean),
        _ => matches!(waits, Waits::Integer(_)),
    }
}

// The number all of whose bits are 1, in a type that has an underlying one.
fn ones(types: &TypeTable, of: TypeRef) -> i128
    ensures { (s : GoType) → Is types.now of s → IsKnown (unnumbered types.now) s → (u : GoType) × Underlying (unnumbered types.now) s u × (result ≡ ones (term_of u)) }
{
    match underlying(types, of) {
        Some(under) => ones_of(types.term(under)),
        None => -1,
    }
}

fn ones_of(row: &Term) -> i128
    ensures { (names : TypeRef → GoType) → result ≡ ones (term_with names row.now) }
{
    match row {
        Term::Basic(kind) => ones_of_kind(*kind),
        _ => -1,
    }
}

fn ones_of_kind(kind: Kind) -> i128
    ensures { result ≡ ones_of_kind kind }
{
    match kind {
        Kind::Uint | Kind::Uint64 => 18446744073709551615,
        Kind::Uint8 => 255,
        Kind::Uint16 => 65535,
        Kind::Uint32 => 4294967295,
        _ => -1,
    }
}

// What the operator gives exactly, where `full` has all the bits of the type.
fn exactly(
    alloc: Global,
    operator: UnaryOperator,
    full: i128,
    value: Constant,
) -> Result<Folded, AllocError>
    ensures { (u : GoType) → full ≡ ones (term_of u) → IfOk result (λ it. WorksOut it (unary_exact operator (term_of u) value)) }
{
    match operator {
        UnaryOperator::Plus => Ok(Folded::Value(value)),
        UnaryOperator::Minus => fold_exactly(alloc, FoldOp::Sub, &Constant::Whole(0), &value),
        UnaryOperator::Complement => fold_exactly(
            alloc,
            FoldOp::Xor,
            &Constant::Whole(full),
            &value,
        ),
        UnaryOperator::Not => fold_exactly(alloc, FoldOp::Equal, &value, &Constant::Bool(false)),
        _ => Ok(Folded::NotDefined),
    }
}
