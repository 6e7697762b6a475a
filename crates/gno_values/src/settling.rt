// Values where their place names no type.
ghost use Rattle.std.specs.Prelude.{IfOk};
ghost use Rattle.gno_giving.specs.Basics.{AreBasics};
ghost use Rattle.gno_giving.specs.InTypes.{InTypeStands};
ghost use Rattle.gno_judging.specs.Answers.{Answers};
ghost use Rattle.gno_judging.specs.Found.{ValueStands};
ghost use Rattle.gno_terms.specs.declared.term.GoType.{GoType};
ghost use Rattle.gno_type_classes.specs.Unnumbered.{unnumbered};
ghost use Rattle.gno_typing.specs.Operands.{settled};
ghost use Rattle.gno_typing.specs.declared.value.ValueOf.{ValueOf};

use gno_giving::{Basics, InType, settled_constant};
use gno_judging::Faults;
use gno_pending::defaulted;
use gno_scan::Pos;
use gno_terms::TypeRef;
use gno_type_table::TypeTable;
use gno_typing::ValueOf;
use std::alloc::{AllocError, Global};

/// A value in its own type, or in its default type; `None` where it has a fault there, which is noted. `nil` has neither type: `code` at
/// the place `place`. Go specification, "Constants" and "Variable declarations".
pub fn settled(
    alloc: Global,
    types: &TypeTable,
    basics: Basics,
    faults: &mut Faults,
    code: u8,
    place: Pos,
    x: ValueOf<TypeRef>,
) -> Result<Option<InType>, AllocError>
    ensures { (y : ValueOf GoType) → AreBasics types.now basics → ValueStands types.now x y → IfOk result (λ r. Answers (settled (unnumbered types.now) code place y) (InTypeStands types.now) faults.old faults.new r) }
{
    match x {
        ValueOf::Constant { pos, of, value } => {
            Ok(settled_constant(types, basics, faults, pos, of, value))
        }
        ValueOf::Nil { pos: _pos } => {
            faults.note(code, place);
            Ok(None)
        }
        ValueOf::Typed {
            pos: _pos,
            of,
            standing: _standing,
            calls: _calls,
            form,
        } => Ok(Some(InType { of, form })),
        ValueOf::Pending {
            pos: _pos,
            waits: _waits,
            calls: _calls,
            form,
        } => defaulted(alloc, types, basics, faults, form),
    }
}
