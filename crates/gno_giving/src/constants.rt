// Constants in their places.
ghost use Rattle.std.specs.Prelude.{IfOk};
ghost use Rattle.gno_giving.specs.Basics.{AreBasics};
ghost use Rattle.gno_giving.specs.InTypes.{InTypeStands};
ghost use Rattle.gno_judging.specs.Answers.{Answers};
ghost use Rattle.gno_judging.specs.Found.{ConstantTypeStands, FormStands};
ghost use Rattle.gno_terms.specs.Lawful.{is_untyped};
ghost use Rattle.gno_terms.specs.Tables.{Is, Table};
ghost use Rattle.gno_terms.specs.Terms.{term_of};
ghost use Rattle.gno_terms.specs.declared.term.GoType.{GoType};
ghost use Rattle.gno_type_classes.specs.Unnumbered.{unnumbered};
ghost use Rattle.gno_typed.specs.declared.expr.TypedExprOf.TheVariants as w;
ghost use Rattle.gno_typing.specs.Classes.{IsDefault, IsOf, IsRepresentable, fits};
ghost use Rattle.gno_typing.specs.Giving as giving;
ghost use Rattle.gno_typing.specs.Giving.{IsDefaultConstant, constant_given, held};
ghost use Rattle.gno_typing.specs.Operands.{settled_constant};
ghost use Rattle.gno_typing.specs.Verdicts.{good, wants};
ghost use Rattle.gno_typing.specs.declared.form.FormOf.TheVariants as f;

use crate::basics::Basics;
use crate::in_type::InType;
use crate::places::boxed;
use gno_assignability::is_value;
use gno_base::Kind;
use gno_constants::Constant;
use gno_judging::Faults;
use gno_scan::Pos;
use gno_terms::TypeRef;
use gno_type_classes::{default_kind, fits, has, is_interface, is_representable};
use gno_type_table::TypeTable;
use gno_typed::TypedExprOf;
use gno_typing::FormOf;
use std::alloc::{AllocError, Global};

/// An untyped constant in its default type, which has this kind; `None` where it is no value of that type, which is noted. Go
/// specification, "Constants" and "Representability".
pub fn default_constant(
    basics: Basics,
    faults: &mut Faults,
    at: Pos,
    kind: Kind,
    value: Constant,
) -> Option<InType>
    ensures { (table rules : Table) (s : GoType) → AreBasics table basics → IsDefault s kind → Answers (IsDefaultConstant rules at s value) (InTypeStands table) faults.old faults.new result }
{
    if is_value(&value, kind) {
        let of = basics.default_of(kind);
        let form = FormOf::Whole(TypedExprOf::Constant { pos: at, of, value });
        Some(InType { of, form })
    } else {
        faults.note(43, at);
        None
    }
}

/// A value as one of an interface type that holds it. `code` at the place `at` where its type does not implement the interface.
pub fn held(
    alloc: Global,
    types: &TypeTable,
    faults: &mut Faults,
    code: u8,
    at: Pos,
    of: TypeRef,
    x: InType,
) -> Result<Option<FormOf<TypeRef>>, AllocError>
    ensures { (u : GoType) (y : giving.InType) → Is types.now of u → InTypeStands types.now x y → IfOk result (λ r. Answers (held (unnumbered types.now) code at u y) (FormStands types.now) faults.old faults.new r) }
{
    if has(types, x.of, of) {
        let form = boxed(alloc, of, x.of, x.form)?;
        Ok(Some(form))
    } else {
        drop(x);
        faults.note(code, at);
        Ok(None)
    }
}

/// An untyped constant, whose default type has this kind, in a place of a type. `code` at the place `at` where it is not assignable.
/// Go specification, "Assignability" and "Representability".
pub fn constant_given(
    alloc: Global,
    types: &TypeTable,
    basics: Basics,
    faults: &mut Faults,
    code: u8,
    at: Pos,
    of: TypeRef,
    pos: Pos,
    kind: Kind,
    value: Constant,
) -> Result<Option<FormOf<TypeRef>>, AllocError>
    ensures { (u s : GoType) → AreBasics types.now basics → Is types.now of u → IsDefault s kind → IfOk result (λ r. Answers (constant_given (unnumbered types.now) code at u pos s value) (FormStands types.now) faults.old faults.new r) }
{
    if is_interface(types, of) {
        match default_constant(basics, faults, pos, kind, value) {
            Some(x) => held(alloc, types, faults, code, at, of, x),
            None => Ok(None),
        }
    } else {
        Ok(constant_in(types, faults, code, at, of, pos, value))
    }
}

// A constant in a type that is no interface type.
fn constant_in(
    types: &TypeTable,
    faults: &mut Faults,
    code: u8,
    at: Pos,
    of: TypeRef,
    pos: Pos,
    value: Constant,
) -> Option<FormOf<TypeRef>>
    ensures { (u : GoType) → Is types.now of u → Answers (wants (IsOf (fits value) (unnumbered types.now) u) code at (wants (IsRepresentable (unnumbered types.now) value u) 43 pos (good (f.Whole (w.Constant pos u value))))) (FormStands types.now) faults.old faults.new result }
{
    if !fits(types, &value, of) {
        faults.note(code, at);
        return None;
    }
    if is_representable(types, &value, of) {
        Some(FormOf::Whole(TypedExprOf::Constant { pos, of, value }))
    } else {
        faults.note(43, pos);
        None
    }
}

/// A constant in its own type, or an untyped one in its default type; `None` where it is no value of that type, which is noted.
pub fn settled_constant(
    types: &TypeTable,
    basics: Basics,
    faults: &mut Faults,
    at: Pos,
    of: TypeRef,
    value: Constant,
) -> Option<InType>
    ensures { (s : GoType) → AreBasics types.now basics → ConstantTypeStands types.now of s → Answers (settled_constant (is_untyped (term_of s)) (unnumbered types.now) at s value) (InTypeStands types.now) faults.old faults.new result }
{
    match default_kind(types, of) {
        Some(kind) => default_constant(basics, faults, at, kind, value),
        None => Some(InType {
            of,
            form: FormOf::Whole(TypedExprOf::Constant { pos: at, of, value }),
        }),
    }
}
