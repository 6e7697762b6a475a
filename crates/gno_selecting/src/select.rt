// Selectors. Go specification, "Selectors" and "Qualified identifiers".
ghost use Rattle.std.specs.Prelude.{ℕ, ◌≡◌, IfOk, List};
ghost use Rattle.gno_giving.specs.Basics.{AreBasics};
ghost use Rattle.gno_judging.specs.Answers.{Answers};
ghost use Rattle.gno_judging.specs.Found.{FormStands, OperandStands, ValueStands};
ghost use Rattle.gno_names.specs.Scopes.{NamesStand};
ghost use Rattle.gno_scan.specs.declared.token.Pos.{Pos};
ghost use Rattle.gno_terms.specs.declared.term.GoType.{GoType};
ghost use Rattle.gno_terms.specs.Tables.{Is, Table};
ghost use Rattle.gno_type_classes.specs.Unnumbered.{unnumbered};
ghost use Rattle.gno_typing.specs.Names.{Meaning};
ghost use Rattle.gno_typing.specs.Operands.{as_value};
ghost use Rattle.gno_typing.specs.Selectors.{selected, selected_in, selector};
ghost use Rattle.gno_selecting.specs.Members.{settled_selected};
ghost use Rattle.gno_typing.specs.Verdicts.{After};
ghost use Rattle.gno_typing.specs.declared.form.FormOf.{FormOf};
ghost use Rattle.gno_typing.specs.declared.operand.OperandOf.{OperandOf};
ghost use Rattle.gno_typing.specs.declared.operand.OperandOf.TheVariants as o;
ghost use Rattle.gno_typing.specs.declared.value.ValueOf.{ValueOf};

use crate::members::selected_of;
use crate::operand::Operand;
use gno_giving::{Basics, InType};
use gno_judging::Faults;
use gno_names::exported;
use gno_scan::Pos;
use gno_seen::calls_in;
use gno_terms::TypeRef;
use gno_type_classes::holder_of;
use gno_type_table::TypeTable;
use gno_typed::ScopeName;
use gno_typing::{OperandOf, Standing, ValueOf};
use gno_values::{as_value, settled};
use std::alloc::{AllocError, Global};

/// `x.name` at a place, in the package of a path: what a package declares, a field, or a method. `None` where there is none, which is
/// noted. `exports` are the names that the package declares that `x` is; where it is none they are not looked at. Go specification,
/// "Selectors" and "Qualified identifiers". An `Err` comes where there is no memory, and where the table was told of the method with a
/// type that values can't have.
pub fn selector(
    alloc: Global,
    types: &TypeTable,
    basics: Basics,
    faults: &mut Faults,
    path: &[u8],
    exports: &[ScopeName],
    place: Pos,
    name: &[u8],
    x: OperandOf<TypeRef>,
) -> Result<Option<OperandOf<TypeRef>>, AllocError>
    ensures { (packages : List ℕ → List Meaning) (y : OperandOf GoType) → AreBasics types.now basics → OperandStands types.now x y → ((at : Pos) (of : List ℕ) → y ≡ o.Package at of → NamesStand types.now exports.now (packages of))
        → IfOk result (λ r. Answers (selector packages path.now (unnumbered types.now) place name.now y) (OperandStands types.now) faults.old faults.new r) }
{
    match x {
        OperandOf::Package { pos: _, path: of } => {
            drop(of);
            exported(types, faults, exports, place, name)
        }
        OperandOf::Type { pos: _, of: _ } => {
            faults.note(52, place);
            Ok(None)
        }
        other => of_value(alloc, types, basics, faults, path, place, name, other),
    }
}

// Of what a value is wanted of.
fn of_value(
    alloc: Global,
    types: &TypeTable,
    basics: Basics,
    faults: &mut Faults,
    path: &[u8],
    place: Pos,
    name: &[u8],
    x: OperandOf<TypeRef>,
) -> Result<Option<OperandOf<TypeRef>>, AllocError>
    ensures { (y : OperandOf GoType) → AreBasics types.now basics → OperandStands types.now x y
        → IfOk result (λ r. Answers (After (as_value y) (selected (unnumbered types.now) place path.now name.now)) (OperandStands types.now) faults.old faults.new r) }
{
    match as_value(alloc, faults, x)? {
        Some(value) => selected(alloc, types, basics, faults, path, place, name, value),
        None => Ok(None),
    }
}

fn selected(
    alloc: Global,
    types: &TypeTable,
    basics: Basics,
    faults: &mut Faults,
    path: &[u8],
    place: Pos,
    name: &[u8],
    x: ValueOf<TypeRef>,
) -> Result<Option<OperandOf<TypeRef>>, AllocError>
    ensures { (y : ValueOf GoType) → AreBasics types.now basics → ValueStands types.now x y
        → IfOk result (λ r. Answers (selected (unnumbered types.now) place path.now name.now y) (OperandStands types.now) faults.old faults.new r) }
{
    match x {
        ValueOf::Typed {
            pos: _,
            of,
            standing,
            calls,
            form,
        } => {
            let x = Operand {
                of,
                standing,
                calls,
                form,
            };
            selected_in(alloc, types, faults, path, place, name, x)
        }
        other => settled_selected(alloc, types, basics, faults, path, place, name, other),
    }
}

// A constant, or a value that waits, in its own or its default type.
fn settled_selected(
    alloc: Global,
    types: &TypeTable,
    basics: Basics,
    faults: &mut Faults,
    path: &[u8],
    place: Pos,
    name: &[u8],
    x: ValueOf<TypeRef>,
) -> Result<Option<OperandOf<TypeRef>>, AllocError>
    ensures { (y : ValueOf GoType) → AreBasics types.now basics → ValueStands types.now x y
        → IfOk result (λ r. Answers (settled_selected (unnumbered types.now) place path.now name.now y) (OperandStands types.now) faults.old faults.new r) }
{
    let calls = calls_in(&x);
    match settled(alloc, types, basics, faults, 52, place, x)? {
        Some(it) => {
            let InType { of, form } = it;
            let x = Operand {
                of,
                standing: Standing::Result,
                calls,
                form,
            };
            selected_in(alloc, types, faults, path, place, name, x)
        }
        None => Ok(None),
    }
}

fn selected_in(
    alloc: Global,
    types: &TypeTable,
    faults: &mut Faults,
    path: &[u8],
    place: Pos,
    name: &[u8],
    x: Operand,
) -> Result<Option<OperandOf<TypeRef>>, AllocError>
    ensures { (s : GoType) (y : FormOf GoType) → Is types.now x.of s → FormStands types.now x.form y
        → IfOk result (λ r. Answers (selected_in (unnumbered types.now) place path.now name.now s x.standing x.calls y) (OperandStands types.now) faults.old faults.new r) }
{
    match holder_of(types, x.of) {
        Some(holder) => selected_of(alloc, types, faults, path, place, name, holder, x),
        None => {
            drop(x);
            faults.note(52, place);
            Ok(None)
        }
    }
}
