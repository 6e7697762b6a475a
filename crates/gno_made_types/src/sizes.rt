// The sizes of types.
ghost use Rattle.std.specs.Prelude.{◌↔◌, IsTrue};
ghost use Rattle.gno_judging.specs.Answers.{Answers};
ghost use Rattle.gno_judging.specs.Found.{TypeStands};
ghost use Rattle.gno_terms.specs.Tables.{Is};
ghost use Rattle.gno_terms.specs.declared.term.GoType.{GoType};
ghost use Rattle.gno_tree_typing.specs.WrittenTypes.{IsSmall, small};
ghost use Rattle.gno_type_classes.specs.Unnumbered.{unnumbered};

use gno_judging::Faults;
use gno_scan::Pos;
use gno_terms::TypeRef;
use gno_type_table::TypeTable;

// At most so many slots may one type have.
const SLOT_LIMIT: u64 = 16_777_216;

fn is_small(types: &TypeTable, t: TypeRef) -> bool
    ensures { (s : GoType) → Is types.now t s → IsTrue result ↔ IsSmall (unnumbered types.now) s }
{
    if !types.contains(t) {
        return false;
    }
    if !types.is_sized(t) {
        return false;
    }
    types.slots(t) <= SLOT_LIMIT
}

/// A type whose values have a number of slots that is not too great; `None` for another one, which is noted.
pub(crate) fn small(
    types: &TypeTable,
    faults: &mut Faults,
    place: Pos,
    t: TypeRef,
) -> Option<TypeRef>
    ensures { (s : GoType) → TypeStands types.now t s → Answers (small (unnumbered types.now) place s) (TypeStands types.now) faults.old faults.new result }
{
    if is_small(types, t) {
        Some(t)
    } else {
        faults.note(78, place);
        None
    }
}
