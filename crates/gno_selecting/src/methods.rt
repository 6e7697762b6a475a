// Methods that selectors name.
ghost use Rattle.std.specs.Prelude.{ℕ, ◌≡◌, ◌&&◌, IfOk, List, length, not};
ghost use Rattle.gno_judging.specs.Answers.{Answers};
ghost use Rattle.gno_judging.specs.Found.{FormStands, OperandStands, TypeStands};
ghost use Rattle.gno_judging.specs.Stands.{ReceiverStands};
ghost use Rattle.gno_promotion.specs.MethodSets as sets;
ghost use Rattle.gno_selecting.specs.Members.{bound_form, holder_with, method_found};
ghost use Rattle.gno_selectors.specs.Selectors.{IsSelected};
ghost use Rattle.gno_terms.specs.declared.term.GoType.{GoType};
ghost use Rattle.gno_terms.specs.Tables.{Below, Is, Table, type_at};
ghost use Rattle.gno_terms.specs.Terms.{method_with};
ghost use Rattle.gno_type_classes.specs.Unnumbered.{unnumbered};
ghost use Rattle.gno_typed.specs.declared.step.ReceiverOf.{ReceiverOf};
ghost use Rattle.gno_typing.specs.Selectors.{asked, declared_method, is_place, method_selected, methods_by};
ghost use Rattle.gno_typing.specs.declared.form.FormOf.{FormOf};

use crate::operand::Operand;
use crate::ways::{adjustment, ends_in_pointer, is_place, may_receive, reached};
use gno_base::List;
use gno_judging::Faults;
use gno_scan::Pos;
use gno_terms::{Method, MethodOf, TypeRef};
use gno_type_classes::{Holder, is_interface, is_untyped};
use gno_type_table::TypeTable;
use gno_typed::{BoundOf, Passed, ReceiverOf};
use gno_typing::OperandOf;
use std::alloc::AllocError;

/// A method, where methods count.
pub(crate) fn with_method(
    types: &TypeTable,
    faults: &mut Faults,
    place: Pos,
    holder: Holder,
    x: Operand,
    way: List<Passed>,
    of: TypeRef,
    method: Method,
) -> Result<Option<OperandOf<TypeRef>>, AllocError>
    ensures { (path name : List ℕ) (s u : GoType) (y : FormOf GoType) → Is types.now x.of s → IsSelected types.now u name (asked path name) way of (sets.method (method_with (type_at types.now.types) method)) → Below (length types.now.types) method.of → FormStands types.now x.form y
        → IfOk result (λ r. Answers (methods_by holder.fields_alone (unnumbered types.now) place path name s x.standing x.calls y (holder_with holder u)) (OperandStands types.now) faults.old faults.new r) }
{
    if holder.fields_alone {
        drop(x);
        drop(way);
        drop(method);
        faults.note(52, place);
        Ok(None)
    } else if is_untyped(types, method.of) {
        drop(x);
        drop(way);
        drop(method);
        Err(AllocError)
    } else {
        Ok(method_selected(types, faults, place, holder, x, way, of, method))
    }
}

// A method of an interface is found in what the value holds when it runs; an interface itself is read as a value.
fn method_selected(
    types: &TypeTable,
    faults: &mut Faults,
    place: Pos,
    holder: Holder,
    x: Operand,
    way: List<Passed>,
    of: TypeRef,
    method: Method,
) -> Option<OperandOf<TypeRef>>
    ensures { (s u w t : GoType) (y : FormOf GoType) → Is types.now x.of s → Is types.now of w → TypeStands types.now method.of t → FormStands types.now x.form y
        → Answers (method_selected (unnumbered types.now) place s x.standing x.calls y (holder_with holder u) (method_found way w method t)) (OperandStands types.now) faults.old faults.new result }
{
    if is_interface(types, of) {
        if is_interface(types, x.of) {
            Some(bound(false, place, holder, x, way, method, ReceiverOf::Held))
        } else {
            let as_place = is_taken_as_place(holder, &x);
            Some(bound(as_place, place, holder, x, way, method, ReceiverOf::Held))
        }
    } else {
        declared_method(faults, place, holder, x, way, of, method)
    }
}

fn declared_method(
    faults: &mut Faults,
    place: Pos,
    holder: Holder,
    x: Operand,
    way: List<Passed>,
    of: TypeRef,
    method: Method,
) -> Option<OperandOf<TypeRef>>
    ensures { (table : Table) (s u w t : GoType) (y : FormOf GoType) → Is table of w → TypeStands table method.of t → FormStands table x.form y
        → Answers (declared_method place s x.standing x.calls y (holder_with holder u) (method_found way w method t)) (OperandStands table) faults.old faults.new result }
{
    let pointer = method.pointer;
    let ends = ends_in_pointer(holder.pointer, way.as_slice());
    let standing = reached(holder.pointer, way.as_slice(), x.standing);
    if may_receive(pointer, ends, standing) {
        let as_place = is_taken_as_place(holder, &x);
        let receiver = ReceiverOf::Declared {
            of,
            pointer,
            adjustment: adjustment(pointer, ends),
        };
        Some(bound(as_place, place, holder, x, way, method, receiver))
    } else {
        drop(x);
        drop(way);
        drop(method);
        faults.note(56, place);
        None
    }
}

/// Whether the operand of a selector is taken as a place.
pub(crate) fn is_taken_as_place(holder: Holder, x: &Operand) -> bool
    ensures { result ≡ is_place x.now.standing && not holder.pointer }
{
    is_place(x.standing) && !holder.pointer
}

fn bound(
    as_place: bool,
    place: Pos,
    holder: Holder,
    x: Operand,
    way: List<Passed>,
    method: Method,
    receiver: ReceiverOf<TypeRef>,
) -> OperandOf<TypeRef>
    ensures { (table : Table) (u w t : GoType) (y : FormOf GoType) (r : ReceiverOf GoType) → TypeStands table method.of t → FormStands table x.form y → ReceiverStands table receiver r
        → OperandStands table result (bound_form as_place place x.calls y (holder_with holder u) (method_found way w method t) r) }
{
    let Operand { calls, form, .. } = x;
    let MethodOf {
        name,
        package,
        of,
        ..
    } = method;
    OperandOf::Method {
        pos: place,
        of,
        calls,
        form,
        bound: BoundOf {
            place: as_place,
            pointer: holder.pointer,
            way,
            name,
            package,
            receiver,
        },
    }
}
