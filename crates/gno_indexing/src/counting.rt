// Values that count elements: an index, a bound of a slice, a size of `make`. Go specification, "Index expressions".
ghost use Rattle.std.specs.Prelude.{◌≡◌, ◌↔◌, ℕ, ℤ, Bool, IfOk, IsTrue, true};
ghost use Rattle.gno_giving.specs.Basics.{AreBasics};
ghost use Rattle.gno_judging.specs.Answers.{Answers};
ghost use Rattle.gno_judging.specs.Found.{ConstantTypeStands, FormStands, PendingStands, ValueStands};
ghost use Rattle.gno_judging.specs.Waiting.{IsWaiting};
ghost use Rattle.gno_scan.specs.declared.token.Pos.{Pos};
ghost use Rattle.gno_indexing.specs.Counting.{CountedStands, IsUnder, is_of_wholes};
ghost use Rattle.gno_terms.specs.Tables.{Is};
ghost use Rattle.gno_terms.specs.Terms.{term_of};
ghost use Rattle.gno_terms.specs.declared.term.GoType.{GoType};
ghost use Rattle.gno_type_classes.specs.Unnumbered.{unnumbered};
ghost use Rattle.gno_typing.specs.Indexes.{IsBelow, IsWide, counted, is_untyped_whole, taken, whole_in};
ghost use Rattle.gno_typing.specs.declared.form.FormOf.{FormOf};
ghost use Rattle.gno_typing.specs.declared.pending.PendingOf.{PendingOf};
ghost use Rattle.gno_typing.specs.declared.value.Standing.{Standing};
ghost use Rattle.gno_typing.specs.declared.value.ValueOf.TheVariants as v;
ghost use Rattle.gno_typing.specs.declared.value.ValueOf.{ValueOf};

use crate::number::Counted;
use gno_base::Kind;
use gno_constants::Constant;
use gno_giving::{Basics, closed};
use gno_judging::Faults;
use gno_pending::given_type;
use gno_scan::Pos;
use gno_terms::TypeRef;
use gno_type_classes::{default_kind, is_integer};
use gno_type_table::TypeTable;
use gno_typed::TypedExprOf;
use gno_typing::{FormOf, PendingOf, Standing, ValueOf, Waits};
use std::alloc::{AllocError, Global};

// One more than the greatest value of the type `int`.
const WIDE: i128 = 1 << 63;

/// A value that counts elements: an untyped integer takes the type `int`. `None` where it is no value of that type, which is noted by 43.
/// Go specification, "Index expressions". An `Err` comes where there is no memory.
pub fn taken(
    alloc: Global,
    types: &TypeTable,
    basics: Basics,
    faults: &mut Faults,
    x: ValueOf<TypeRef>,
) -> Result<Option<ValueOf<TypeRef>>, AllocError>
    ensures { (y : ValueOf GoType) → AreBasics types.now basics → ValueStands types.now x y → IfOk result (λ r. Answers (taken (unnumbered types.now) y) (ValueStands types.now) faults.old faults.new r) }
{
    match x {
        ValueOf::Constant { pos, of, value } => {
            Ok(constant_taken(types, basics, faults, pos, of, value))
        }
        ValueOf::Pending {
            pos,
            waits,
            calls,
            form,
        } => pending_taken(alloc, types, basics, faults, pos, waits, calls, form),
        other => Ok(Some(other)),
    }
}

fn constant_taken(
    types: &TypeTable,
    basics: Basics,
    faults: &mut Faults,
    pos: Pos,
    of: TypeRef,
    value: Constant,
) -> Option<ValueOf<TypeRef>>
    ensures { (s : GoType) → AreBasics types.now basics → ConstantTypeStands types.now of s → Answers (taken (unnumbered types.now) (v.Constant pos s value)) (ValueStands types.now) faults.old faults.new result }
{
    if !is_untyped_whole(types, of) {
        return Some(ValueOf::Constant { pos, of, value });
    }
    if is_wide(&value) {
        drop(value);
        faults.note(43, pos);
        None
    } else {
        Some(ValueOf::Constant {
            pos,
            of: basics.int,
            value,
        })
    }
}

// Whether the type is that of untyped integer or rune constants.
fn is_untyped_whole(types: &TypeTable, t: TypeRef) -> bool
    ensures { (s : GoType) → Is types.now t s → result ≡ is_untyped_whole (term_of s) }
{
    is_of_wholes(default_kind(types, t))
}

fn is_of_wholes(kind: Option<Kind>) -> bool
    ensures { result ≡ is_of_wholes kind }
{
    match kind {
        Some(Kind::Int) => true,
        Some(Kind::Int32) => true,
        _ => false,
    }
}

// Whether a constant is a whole number that is no value of the type `int`.
fn is_wide(value: &Constant) -> bool
    ensures { IsTrue result ↔ IsWide true value.now }
{
    match value {
        Constant::Whole(n) => *n < -WIDE || WIDE <= *n,
        _ => false,
    }
}

fn pending_taken(
    alloc: Global,
    types: &TypeTable,
    basics: Basics,
    faults: &mut Faults,
    pos: Pos,
    waits: Waits,
    calls: bool,
    form: PendingOf<TypeRef>,
) -> Result<Option<ValueOf<TypeRef>>, AllocError>
    ensures { (y : PendingOf GoType) → AreBasics types.now basics → PendingStands types.now form y → IsWaiting y → IfOk result (λ r. Answers (taken (unnumbered types.now) (v.Pending pos waits calls y)) (ValueStands types.now) faults.old faults.new r) }
{
    match waits {
        Waits::Boolean => Ok(Some(ValueOf::Pending {
            pos,
            waits,
            calls,
            form,
        })),
        Waits::Integer(_first) => match given_type(alloc, types, faults, basics.int, form)? {
            Some(form) => Ok(Some(ValueOf::Typed {
                pos,
                of: basics.int,
                standing: Standing::Result,
                calls,
                form,
            })),
            None => Ok(None),
        },
    }
}

/// A value that counts elements, in its typed form. `None` where it is no integer, or where it is a constant that is below 0 or not below
/// `end`, which is noted by these two codes at `place`. Go specification, "Index expressions". An `Err` comes where there is no memory.
pub fn counted(
    alloc: Global,
    types: &TypeTable,
    faults: &mut Faults,
    no_integer: u8,
    out_of_bounds: u8,
    end: i128,
    place: Pos,
    x: ValueOf<TypeRef>,
) -> Result<Option<Counted>, AllocError>
    ensures { (y : ValueOf GoType) → ValueStands types.now x y → IfOk result (λ r. Answers (counted (unnumbered types.now) no_integer out_of_bounds (IsUnder end) place y) (CountedStands types.now) faults.old faults.new r) }
{
    match x {
        ValueOf::Constant { pos, of, value } => Ok(constant_counted(
            types,
            faults,
            no_integer,
            out_of_bounds,
            end,
            place,
            pos,
            of,
            value,
        )),
        ValueOf::Typed {
            pos: _pos,
            of,
            standing: _standing,
            calls: _calls,
            form,
        } => typed_counted(alloc, types, faults, no_integer, place, of, form),
        other => {
            drop(other);
            faults.note(no_integer, place);
            Ok(None)
        }
    }
}

fn constant_counted(
    types: &TypeTable,
    faults: &mut Faults,
    no_integer: u8,
    out_of_bounds: u8,
    end: i128,
    place: Pos,
    pos: Pos,
    of: TypeRef,
    value: Constant,
) -> Option<Counted>
    ensures { (s : GoType) → Is types.now of s → Answers (counted (unnumbered types.now) no_integer out_of_bounds (IsUnder end) place (v.Constant pos s value)) (CountedStands types.now) faults.old faults.new result }
{
    if !is_integer(types, of) {
        drop(value);
        faults.note(no_integer, place);
        return None;
    }
    let n = whole_in(&value);
    if is_under(end, n) {
        Some(Counted {
            form: TypedExprOf::Constant { pos, of, value },
            value: Some(n),
        })
    } else {
        drop(value);
        faults.note(out_of_bounds, place);
        None
    }
}

fn whole_in(value: &Constant) -> i128
    ensures { result ≡ whole_in value.now }
{
    match value {
        Constant::Whole(n) => *n,
        _ => 0,
    }
}

fn is_under(end: i128, n: i128) -> bool
    ensures { IsTrue result ↔ IsUnder end n }
{
    0 <= n && n < end
}

fn typed_counted(
    alloc: Global,
    types: &TypeTable,
    faults: &mut Faults,
    no_integer: u8,
    place: Pos,
    of: TypeRef,
    form: FormOf<TypeRef>,
) -> Result<Option<Counted>, AllocError>
    ensures { (s : GoType) (y : FormOf GoType) (at : Pos) (stands : Standing) (calls : Bool) (out_of_bounds : ℕ) (end : ℤ) → Is types.now of s → FormStands types.now form y → IfOk result (λ r. Answers (counted (unnumbered types.now) no_integer out_of_bounds (IsUnder end) place (v.Typed at s stands calls y)) (CountedStands types.now) faults.old faults.new r) }
{
    if is_integer(types, of) {
        let form = closed(alloc, form)?;
        Ok(Some(Counted { form, value: None }))
    } else {
        drop(form);
        faults.note(no_integer, place);
        Ok(None)
    }
}

/// Where constant indexes end: at the length where it is known, and else where those of the type `int` do.
pub fn end_below(count: Option<u64>) -> i128
    ensures { (n : ℤ) → IsUnder result n ↔ IsBelow count n }
{
    match count {
        Some(m) => i128::from(m),
        None => WIDE,
    }
}
